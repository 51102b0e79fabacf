//! `clone`, written out since a derived one says nothing of a type that holds itself.
ghost use Rattle.std.specs.Prelude.{◌≡◌, IfOk};

use crate::node::Node;
use std::alloc::AllocError;
use swc_tree_marks::swc_tree_items::Items;

impl Clone for Node {
    ghost is_clone = { λ node other. other ≡ node };

    fn clone(&self) -> Result<Node, AllocError> {
        copy(self)
    }
}

#[cycle(copy)]
fn copy(node: &Node) -> Result<Node, AllocError>
    ensures { IfOk result (λ other. other ≡ node.now) }
{
    match node {
        Node::Absent => Ok(Node::Absent),
        Node::Flag(flag) => Ok(Node::Flag(*flag)),
        Node::Word(word) => Ok(Node::Word(*word)),
        Node::Text(text) => Ok(Node::Text(text.clone()?)),
        Node::Span(span) => Ok(Node::Span(*span)),
        Node::List(items) => Ok(Node::List(copy_nodes(items)?)),
        Node::Identifier(kind, ident) => Ok(Node::Identifier(*kind, ident.clone()?)),
        Node::Tree(kind, fields) => Ok(Node::Tree(*kind, copy_nodes(fields)?)),
    }
}

/// A copy of each of some nodes. `Items<Node>` has no `clone` that says so much.
#[cycle(copy)]
pub fn copy_nodes(nodes: &Items<Node>) -> Result<Items<Node>, AllocError>
    ensures { IfOk result (λ others. others ≡ nodes.now) }
{
    let mut others = Items::with_capacity(nodes.allocator(), nodes.len())?;
    for node in nodes.as_slice() {
        others.push(copy(node)?)?;
    }
    Ok(others)
}
