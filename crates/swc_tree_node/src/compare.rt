//! `==`, written out since a derived one says nothing of a type that holds itself.
ghost use Rattle.std.specs.Prelude.{◌≡◌, ◌↔◌, IsTrue};
ghost use Rattle.swc_tree_node.specs.Sameness.{same, same_equiv, same_per};

use crate::node::Node;

impl PartialEq for Node {
    ghost eq = { same };

    ghost laws = { same_per };

    fn eq(&self, other: &Node) -> bool
        ensures is { result ≡ same self.now other.now }
        ensures exactly { IsTrue result ↔ (self.now ≡ other.now) }
    {
        equals(self, other)
    }
}

impl Eq for Node {
    ghost laws = { same_equiv };
}

#[cycle(equals)]
fn equals(one: &Node, other: &Node) -> bool
    ensures { IsTrue result ↔ (one.now ≡ other.now) }
{
    match (one, other) {
        (Node::Absent, Node::Absent) => true,
        (Node::Flag(flag), Node::Flag(same)) => flag == same,
        (Node::Word(word), Node::Word(same)) => word == same,
        (Node::Text(text), Node::Text(same)) => text == same,
        (Node::Span(span), Node::Span(same)) => span == same,
        (Node::List(items), Node::List(same)) => all_equal(items.as_slice(), same.as_slice()),
        (Node::Identifier(kind, ident), Node::Identifier(same, name)) => {
            kind == same && ident.get() == name.get()
        }
        (Node::Tree(kind, fields), Node::Tree(same, others)) => {
            kind == same && all_equal(fields.as_slice(), others.as_slice())
        }
        _ => false,
    }
}

// Whether two lists hold equal nodes.
#[cycle(equals)]
fn all_equal(ones: &[Node], others: &[Node]) -> bool
    ensures { IsTrue result ↔ (ones.now ≡ others.now) }
{
    if ones.len() != others.len() {
        return false;
    }
    for i in 0..ones.len() {
        if !equals(&ones[i], &others[i]) {
            return false;
        }
    }
    true
}
