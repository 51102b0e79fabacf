//! Labels that name functions.
ghost use Rattle.std.specs.Prelude.{◌≡◌};
ghost use Rattle.std.specs.List.{list_all};
ghost use Rattle.swc_tree_renaming.specs.Apart.{labels_no_function as no_label_names_function};
ghost use Rattle.swc_base_early_errors.specs.Labels.{names_one};

use swc_tree_node::fields::labeled_stmt;
use swc_tree_node::{Kind, Node};

/// Whether no label names a function declaration in a tree (ECMA-262, 14.13.1, without B.3.1).
///
/// It takes no memory, looks at each node at most once, and stops at the first that it finds.
#[cycle(labels)]
#[tactic(auto, using(crate::proofs::Labelled::labels_of_tree, crate::proofs::Labelled::labels_of_list))]
pub fn labels_no_function(tree: &Node) -> bool
    ensures { result ≡ no_label_names_function tree.now }
{
    match tree {
        Node::List(nodes) => all_label_no_function(nodes.as_slice()),
        Node::Tree(kind, nodes) => {
            let nodes = nodes.as_slice();
            !names_function(*kind, nodes) && all_label_no_function(nodes)
        }
        _ => true,
    }
}

// The same of each of some trees.
#[cycle(labels)]
fn all_label_no_function(trees: &[Node]) -> bool
    ensures { result ≡ list_all no_label_names_function trees.now }
{
    for tree in trees {
        if !labels_no_function(tree) {
            return false;
        }
    }
    true
}

// Whether a tree of that kind with those fields is a label that names a function declaration.
fn names_function(kind: Kind, fields: &[Node]) -> bool
    ensures { result ≡ names_one kind fields.now }
{
    match kind {
        Kind::LabeledStmt => match fields.get(labeled_stmt::BODY) {
            Some(Node::Tree(Kind::FnDecl, _)) => true,
            _ => false,
        },
        _ => false,
    }
}
