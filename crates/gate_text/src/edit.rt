//! Rows of `edit_text` between what `read_text` answers to two texts.
use crate::print::is_read_as;
use crate::read::{said, told};
use crate::words::{Asked, comments_of};
use std::alloc::Global;
use swc_tree_node::Node;
use text_edit::{EditFault, edit_text};
use text_source::read_text;

const BETWEEN: &[u8] = b"\n====\n";

// What stands before the line that is between two texts, and what behind it.
pub(crate) fn two_texts(text: &[u8]) -> Option<(&[u8], &[u8])> {
    for at in 0..text.len() {
        let (first, rest) = text.split_at(at);
        if let Some(second) = rest.strip_prefix(BETWEEN) {
            return Some((first, second));
        }
    }
    None
}

fn edited(alloc: Global, asked: Asked, text: &[u8], before: &Node, after: &Node) -> Option<String> {
    match edit_text(alloc, comments_of(asked.goal), text, before, after) {
        Ok(edited) => {
            if is_read_as(alloc, asked, edited.as_slice(), after) {
                String::from_utf8_lossy(alloc, edited.as_slice()).ok()
            } else {
                said(alloc, "what was edited is not read as the tree")
            }
        }
        Err(EditFault::NoMemory) => None,
        Err(EditFault::OtherText) => said(alloc, "the text is not that of the tree before"),
        Err(EditFault::NotTheText) => {
            said(alloc, "what was written is not the text of the tree after")
        }
    }
}

// A text of a tree edited to be another text's, but for its layout; or that text's fault.
fn edited_to(
    alloc: Global,
    asked: Asked,
    text: &[u8],
    before: &Node,
    other: &[u8],
) -> Option<String> {
    match read_text(alloc, asked.goal, asked.depth, other) {
        Ok(after) => edited(alloc, asked, text, before, &after),
        Err(fault) => told(alloc, other, fault),
    }
}

/// The first of two texts edited to be the second's, but for its layout; or a fault.
pub(crate) fn edit(alloc: Global, asked: Asked, text: &[u8]) -> Option<String> {
    let (first, second) = two_texts(text)?;
    match read_text(alloc, asked.goal, asked.depth, first) {
        Ok(before) => edited_to(alloc, asked, first, &before, second),
        Err(fault) => told(alloc, first, fault),
    }
}
