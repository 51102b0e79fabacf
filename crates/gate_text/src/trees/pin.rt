//! Rows of programs that fit and that the grammar derives: the input is a tree, and what is wanted is whether it is `pinned` or `open`.
use crate::trees::lack::node;
use std::alloc::Global;
use swc_tree_node::{Class, Content, Slot};
use text_checks::is_pinned;

fn class_of(words: &str) -> Option<Class> {
    match words {
        "pin module" => Some(Class::Module),
        "pin script" => Some(Class::Script),
        _ => None,
    }
}

/// The answer to a row.
pub fn answer(alloc: Global, words: &str, input: &str) -> Option<String> {
    let slot = Slot::One(Content::Node(class_of(words)?));
    let tree = node(alloc, slot, input)?;
    let word = if is_pinned(&tree) { "pinned" } else { "open" };
    String::from_str(alloc, word).ok()
}
