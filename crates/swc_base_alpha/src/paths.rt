//! Where a difference shows: paths of the trees that came in.
//!
//! A normal form keeps the spans of what stands in it. So copies of both trees are numbered, each span by its number in the order of
//! the source; the numbers that stand where the normal forms of the copies differ are looked up in the trees.
ghost use Rattle.std.specs.Prelude.{IfOk, IsTrue};
ghost use Rattle.swc_base_alpha.specs.Verdict.{IsThere};

use std::alloc::{AllocError, Global};
use swc_tree_items::Items;
use swc_tree_marks::Span;
use swc_tree_node::Node;

/// The number of no span.
pub const NONE: u32 = 0;

// The span of the next number.
fn next_span(last: &mut u32) -> Span {
    *last = last.saturating_add(1);
    Span {
        lo: *last,
        hi: *last,
    }
}

/// A copy of a tree with its number in each span.
///
/// # Errors
///
/// Where memory was refused.
pub fn numbered(node: &Node) -> Result<Node, AllocError> {
    let mut last = NONE;
    number_node(node, &mut last)
}

#[cycle(number_node)]
fn number_node(node: &Node, last: &mut u32) -> Result<Node, AllocError> {
    match node {
        Node::Span(_) => Ok(Node::Span(next_span(last))),
        Node::Identifier(kind, ident) => {
            let mut ident = ident.clone()?;
            ident.get_mut().span = next_span(last);
            Ok(Node::Identifier(*kind, ident))
        }
        Node::List(items) => Ok(Node::List(number_nodes(items, last)?)),
        Node::Tree(kind, fields) => Ok(Node::Tree(*kind, number_nodes(fields, last)?)),
        _ => node.clone(),
    }
}

#[cycle(number_node)]
fn number_nodes(nodes: &Items<Node>, last: &mut u32) -> Result<Items<Node>, AllocError> {
    let mut copies = Items::with_capacity(nodes.allocator(), nodes.len())?;
    for node in nodes.as_slice() {
        copies.push(number_node(node, last)?)?;
    }
    Ok(copies)
}

// Goes on to the node of a number, counting down what is left of it. Whether it was found; the path leads there then: to the node of
// which a span is.
#[cycle(find)]
fn find(node: &Node, left: &mut u32, path: &mut Vec<usize>) -> Result<bool, AllocError> {
    if matches!(node, Node::Span(_) | Node::Identifier(..)) {
        *left = left.saturating_sub(1);
        if *left == 0 {
            if matches!(node, Node::Span(_)) {
                path.pop();
            }
            return Ok(true);
        }
    }
    find_below(node.children(), left, path)
}

#[cycle(find)]
fn find_below(nodes: &[Node], left: &mut u32, path: &mut Vec<usize>) -> Result<bool, AllocError> {
    for i in 0..nodes.len() {
        path.push(i)?;
        if find(&nodes[i], left, path)? {
            return Ok(true);
        }
        path.pop();
    }
    Ok(false)
}

/// Whether something stands at a path.
pub fn stands_at(tree: &Node, path: &[usize]) -> bool
    ensures { IsTrue result → IsThere tree.now path.now }
{
    let mut node = tree;
    for i in path {
        match node.children().get(*i) {
            Some(child) => node = child,
            None => return false,
        }
    }
    true
}

/// The path of a number's node in the tree that was numbered; that of the tree itself where there is none.
///
/// # Errors
///
/// Where memory was refused.
pub fn path_of(alloc: Global, tree: &Node, number: u32) -> Result<Vec<usize>, AllocError>
    ensures { IfOk result (λ path. IsThere tree.now path.items) }
{
    let mut path = Vec::new(alloc);
    if number == NONE {
        return Ok(path);
    }
    let mut left = number;
    let found = find(tree, &mut left, &mut path)?;
    if found && stands_at(tree, path.as_slice()) {
        return Ok(path);
    }
    Ok(Vec::new(alloc))
}
