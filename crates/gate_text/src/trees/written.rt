//! Rows of programs that are written: the input is a tree of the class that a word names, and what is wanted is its compact text, or what
//! keeps it from having one, and where.
use crate::trees::lack::node;
use jsbase_form::path_to;
use std::alloc::{AllocError, Global};
use swc_tree_node::{Class, Content, Node, Slot};
use text_lexer::Comments;
use text_printer::Layout;
use text_writing::{WriteFault, write_text};

// The class and the comments that some words name.
fn asked(words: &str) -> Option<(Class, Comments)> {
    match words {
        "write module" => Some((Class::Module, Comments::Module)),
        "write script" => Some((Class::Script, Comments::Script)),
        _ => None,
    }
}

// What is to blame, and where it stands.
fn told(alloc: Global, what: &str, tree: &Node, numbers: &[usize]) -> Result<String, AllocError> {
    let path = path_to(alloc, tree, numbers)?;
    let shown = path.to_text(alloc)?;
    let mut text = String::from_str(alloc, what)?;
    text.push_str(" at ")?;
    text.push_str(&shown)?;
    Ok(text)
}

fn fault(alloc: Global, tree: &Node, fault: &WriteFault) -> Result<String, AllocError> {
    match fault {
        WriteFault::NoMemory => String::from_str(alloc, "no memory"),
        WriteFault::Shape(path) => told(alloc, "shape", tree, path.as_slice()),
        WriteFault::Spelling(path) => told(alloc, "spelling", tree, path.as_slice()),
        WriteFault::NoText => String::from_str(alloc, "no text"),
    }
}

/// The answer to a row.
pub fn answer(alloc: Global, words: &str, input: &str) -> Option<String> {
    let (class, comments) = asked(words)?;
    let tree = node(alloc, Slot::One(Content::Node(class)), input)?;
    match write_text(alloc, comments, Layout::Compact, &tree) {
        Ok(text) => String::from_utf8_lossy(alloc, text.as_slice()).ok(),
        Err(why) => fault(alloc, &tree, &why).ok(),
    }
}
