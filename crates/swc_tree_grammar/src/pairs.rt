//! A pair of parentheses, by where it stands.
use swc_tree_node::swc_tree_marks::Span;

/// A pair of parentheses that is taken off: where its content stands, and where it stands itself.
#[derive(Clone, Copy, Debug, PartialEq, Eq)]
pub struct Pair {
    pub content: Span,
    pub whole: Span,
}
