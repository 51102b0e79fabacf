//! Whether two trees have one outline.
ghost use Rattle.std.specs.Prelude.{◌≡◌, ◌↔◌, IsTrue, map};
ghost use Rattle.swc_base_rename_laws.specs.NewNames.{outline};

use swc_tree_node::Node;

/// Whether two trees are the same but for spans and what identifiers are called.
#[cycle(same_outline)]
pub fn same_outline(one: &Node, other: &Node) -> bool
    ensures { IsTrue result ↔ (outline one.now ≡ outline other.now) }
{
    match one {
        Node::Span(_) => match other {
            Node::Span(_) => true,
            _ => false,
        },
        Node::List(items) => match other {
            Node::List(others) => same_outlines(items.as_slice(), others.as_slice()),
            _ => false,
        },
        Node::Identifier(kind, _) => match other {
            Node::Identifier(same, _) => kind == same,
            _ => false,
        },
        Node::Tree(kind, fields) => match other {
            Node::Tree(same, others) => {
                kind == same && same_outlines(fields.as_slice(), others.as_slice())
            }
            _ => false,
        },
        _ => one == other,
    }
}

// Whether the trees of two lists have one outline each.
#[cycle(same_outline)]
fn same_outlines(ones: &[Node], others: &[Node]) -> bool
    ensures { IsTrue result ↔ (map outline ones.now ≡ map outline others.now) }
{
    if ones.len() != others.len() {
        return false;
    }
    for i in 0..ones.len() {
        if !same_outline(&ones[i], &others[i]) {
            return false;
        }
    }
    true
}
