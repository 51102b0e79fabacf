//! Rows of programs: the input is a tree of the class that a word names, and what is wanted is what it lacks, or `none`.
use jsbase_reader::read;
use json::{Scratch, Value};
use std::alloc::Global;
use swc_tree::Globals;
use swc_tree_node::{Class, Content, Node, Slot};
use text_checks::{Lack, check_tree};

fn class_of(words: &str) -> Option<Class> {
    match words {
        "lack module" => Some(Class::Module),
        "lack script" => Some(Class::Script),
        _ => None,
    }
}

/// The node of a place that a text is.
pub fn node(alloc: Global, slot: Slot, text: &str) -> Option<Node> {
    let globals = Globals::new(alloc);
    let mut scratch = Scratch::new(alloc);
    let value = Value::parse(alloc, text, &mut scratch).ok()?;
    read(alloc, &globals, &value, slot).ok()
}

fn word_of(lacking: Result<(), Lack>) -> &'static str {
    match lacking {
        Ok(()) => "none",
        Err(Lack::Fitting) => "fitting",
        Err(Lack::Shape) => "shape",
        Err(Lack::Spelling) => "spelling",
        Err(Lack::Derivation) => "derivation",
    }
}

/// The answer to a row.
pub fn answer(alloc: Global, words: &str, input: &str) -> Option<String> {
    let slot = Slot::One(Content::Node(class_of(words)?));
    let tree = node(alloc, slot, input)?;
    String::from_str(alloc, word_of(check_tree(slot, &tree))).ok()
}
