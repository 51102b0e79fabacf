//! The one node of a span.
ghost use Rattle.std.specs.Prelude.{IfOk, IfSome};
ghost use Rattle.swc_base_alpha.specs.Verdict.{IsThere};

use crate::paths::stands_at;
use crate::spans::own_span;
use std::alloc::{AllocError, Global};
use swc_tree_marks::{DUMMY_SP, Span};
use swc_tree_node::Node;

/// What is looked for: identifiers of a span, or nodes of it.
#[derive(Clone, Copy)]
pub struct Sought {
    pub span: Span,
    pub is_name: bool,
}

impl Sought {
    fn matches(self, node: &Node) -> bool {
        match node {
            Node::Identifier(..) => own_span(node) == Some(self.span),
            Node::Tree(..) => !self.is_name && own_span(node) == Some(self.span),
            _ => false,
        }
    }
}

// How many stand in a tree, with those before it; they are not counted on beyond the second.
#[cycle(count)]
fn count(sought: Sought, node: &Node, before: u8) -> u8 {
    if before > 1 {
        return before;
    }
    let found = if sought.matches(node) {
        before + 1
    } else {
        before
    };
    count_below(sought, node.children(), found)
}

#[cycle(count)]
fn count_below(sought: Sought, nodes: &[Node], before: u8) -> u8 {
    let mut found = before;
    for i in 0..nodes.len() {
        found = count(sought, &nodes[i], found);
    }
    found
}

// Goes on to the first that is looked for. Whether there is one; the path leads there then.
#[cycle(find)]
fn find(sought: Sought, node: &Node, path: &mut Vec<usize>) -> Result<bool, AllocError> {
    if sought.matches(node) {
        return Ok(true);
    }
    find_below(sought, node.children(), path)
}

#[cycle(find)]
fn find_below(sought: Sought, nodes: &[Node], path: &mut Vec<usize>) -> Result<bool, AllocError> {
    for i in 0..nodes.len() {
        path.push(i)?;
        if find(sought, &nodes[i], path)? {
            return Ok(true);
        }
        path.pop();
    }
    Ok(false)
}

/// The path of what is looked for, if just one such node stands in a tree and its span is of source text.
///
/// # Errors
///
/// Where memory was refused.
pub fn only_path(
    alloc: Global,
    tree: &Node,
    sought: Sought,
) -> Result<Option<Vec<usize>>, AllocError>
    ensures { IfOk result (λ found. IfSome found (λ path. IsThere tree.now path.items)) }
{
    if sought.span == DUMMY_SP || count(sought, tree, 0) != 1 {
        return Ok(None);
    }
    let mut path = Vec::new(alloc);
    let found = find(sought, tree, &mut path)?;
    if found && stands_at(tree, path.as_slice()) {
        return Ok(Some(path));
    }
    Ok(None)
}
