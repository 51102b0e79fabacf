//! What is asked of a node, and of several, by the three kinds of rules.

use crate::words;
use swc_base_writable_rules as writing;
use text_derives as grammar;

/// What is asked of a node in its place.
#[derive(Clone, Copy)]
pub struct Asked {
    pub writing: writing::Look,
    pub grammar: grammar::Look,
    pub words: words::Ask,
}

/// What is asked of a node itself, as it is found, and of each of its children; lent, so that nothing of it is copied.
#[derive(Clone, Copy)]
pub struct Rules<'a> {
    pub writing: &'a writing::Rule,
    pub grammar: &'a grammar::Rule,
    pub words: &'a words::Rule,
}
