//! Rows of `print_text` over what `read_text` answers.
use crate::read::{said, told};
use crate::show::{Spans, shown};
use crate::words::{Asked, comments_of};
use std::alloc::Global;
use swc_tree_node::Node;
use text_printer::{Layout, print_text};
use text_source::read_text;

fn are_same(alloc: Global, one: &Node, other: &Node) -> bool {
    match (
        shown(alloc, Spans::Left, one),
        shown(alloc, Spans::Left, other),
    ) {
        (Some(one), Some(other)) => one.as_str() == other.as_str(),
        _ => false,
    }
}

/// Whether a text is read as a tree but for its spans.
pub(crate) fn is_read_as(alloc: Global, asked: Asked, text: &[u8], tree: &Node) -> bool {
    match read_text(alloc, asked.goal, asked.depth, text) {
        Ok(again) => are_same(alloc, tree, &again),
        Err(_) => false,
    }
}

/// The text of a tree, if it is read as the tree again.
pub(crate) fn print_tree(
    alloc: Global,
    asked: Asked,
    layout: Layout,
    tree: &Node,
) -> Option<Vec<u8>> {
    match print_text(alloc, comments_of(asked.goal), layout, tree) {
        Ok(text) => {
            if is_read_as(alloc, asked, text.as_slice(), tree) {
                Some(text)
            } else {
                None
            }
        }
        Err(_) => None,
    }
}

fn printed(alloc: Global, asked: Asked, layout: Layout, tree: &Node) -> Option<String> {
    match print_tree(alloc, asked, layout, tree) {
        Some(text) => String::from_utf8_lossy(alloc, text.as_slice()).ok(),
        None => said(alloc, "what is printed is not read as the tree"),
    }
}

/// The text of a text's tree, or the text's fault.
pub(crate) fn print(alloc: Global, asked: Asked, layout: Layout, text: &[u8]) -> Option<String> {
    match read_text(alloc, asked.goal, asked.depth, text) {
        Ok(tree) => printed(alloc, asked, layout, &tree),
        Err(fault) => told(alloc, text, fault),
    }
}
