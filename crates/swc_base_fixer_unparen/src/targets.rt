//! Parenthesised assignment targets, and whether each takes a value.
ghost use Rattle.std.specs.Prelude.{◌≡◌, ◌<◌, length, map, IfSome};
ghost use Rattle.std.specs.List.{list_all};
ghost use Rattle.swc_tree_node.specs.declared.node.Node.TheOpen.{Node-F};
ghost use Rattle.swc_tree_grammar.specs.Targets.{all_bare as bare, bare_in, is_simple as simple, is_target as target, seen};
ghost use Rattle.swc_base_fixer_unparen.specs.Fields.{content_field as content_field_of};

use swc_tree_node::fields::assign_expr;
use swc_tree_node::{Kind, Node};

// Whether a value can be assigned to an expression of that kind.
fn is_simple(kind: Kind) -> bool
    ensures { result ≡ simple kind }
{
    matches!(kind, Kind::Ident | Kind::MemberExpr | Kind::SuperPropExpr)
}

// The field with the content of a pair or with the items of a sequence.
fn content_field(kind: Kind, fields: &[Node]) -> Option<usize>
    ensures field { result ≡ content_field_of kind fields.now }
    ensures within { IfSome result (λ i. i < length fields.now) }
{
    match kind {
        Kind::ParenExpr | Kind::SeqExpr if fields.len() == 2 => Some(1),
        _ => None,
    }
}

/// Whether a node is an identifier, a member or a property of `super`, but for pairs and sequences of
/// one item.
#[tactic(auto, using(crate::proofs::Fields::target_in_field, crate::proofs::Fields::target_by_kind, crate::proofs::Fields::only_target, crate::proofs::Fields::no_target))]
pub fn is_target(node: &Node) -> bool
    ensures { result ≡ target node.now }
{
    match node {
        Node::Identifier(kind, _) => is_simple(*kind),
        Node::List(items) => {
            let items = items.as_slice();
            items.len() == 1 && is_target(&items[0])
        }
        Node::Tree(kind, fields) => {
            let fields = fields.as_slice();
            match content_field(*kind, fields) {
                Some(index) => is_target(&fields[index]),
                None => is_simple(*kind),
            }
        }
        _ => false,
    }
}

fn is_pair(node: &Node) -> bool
    ensures { result ≡ (seen node.now).is_pair }
{
    match node {
        Node::Tree(kind, _) => matches!(kind, Kind::ParenExpr),
        _ => false,
    }
}

// Whether the target of an assignment can stand without its parentheses.
fn is_bare(kind: Kind, fields: &[Node]) -> bool
    ensures { result ≡ bare_in (Node-F.Tree kind (map seen fields.now)) }
{
    match kind {
        Kind::AssignExpr if fields.len() == 4 => {
            let left = &fields[assign_expr::LEFT];
            !is_pair(left) || is_target(left)
        }
        _ => true,
    }
}

/// Whether each parenthesised assignment target in the tree can stand bare: without pairs and sequences
/// of one item it is an identifier, a member or a property of `super`.
#[cycle(bare)]
#[tactic(auto, using(swc_tree_grammar::proofs::Walks::bare_of_tree, swc_tree_grammar::proofs::Walks::bare_of_list))]
pub fn all_bare(node: &Node) -> bool
    ensures { result ≡ bare node.now }
{
    match node {
        Node::List(items) => each_bare(items.as_slice()),
        Node::Tree(kind, fields) => is_bare(*kind, fields.as_slice())
            && each_bare(fields.as_slice()),
        _ => true,
    }
}

#[cycle(bare)]
#[tactic(auto, using(crate::proofs::Leaves::bare_leaves))]
fn each_bare(nodes: &[Node]) -> bool
    ensures { result ≡ list_all bare nodes.now }
{
    for node in nodes {
        if node.has_parts() && !all_bare(node) {
            return false;
        }
    }
    true
}
