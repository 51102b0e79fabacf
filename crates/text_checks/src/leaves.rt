//! What is seen of one node.
ghost use Rattle.std.specs.Prelude.{◌≡◌};
ghost use Rattle.swc_tree_grammar.specs.Forms.{holds as is_held};
ghost use Rattle.swc_tree_grammar.specs.Levels.{is_absent as is_nothing, word_of as word_in};
ghost use Rattle.swc_tree_grammar.specs.Shapes.{items_of};

use swc_tree_node::{Node, Word};

/// Whether nothing stands there.
pub fn is_absent(node: &Node) -> bool
    ensures { result ≡ is_nothing node.now }
{
    matches!(node, Node::Absent)
}

/// The items of a list; no other node has any.
pub fn items(node: &Node) -> &[Node]
    ensures { result.now ≡ items_of node.now }
{
    match node {
        Node::List(items) => items.as_slice(),
        _ => &[],
    }
}

/// Whether a flag is set.
pub fn is_set(node: &Node) -> bool
    ensures { result ≡ is_held node.now }
{
    match node {
        Node::Flag(flag) => *flag,
        _ => false,
    }
}

/// The word that a node is, if it is one.
pub fn word_of(node: &Node) -> Option<Word>
    ensures { result ≡ word_in node.now }
{
    match node {
        Node::Word(word) => Some(*word),
        _ => None,
    }
}
