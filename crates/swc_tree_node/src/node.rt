//! The node of the syntax tree.
use crate::kind::{Kind, Word};
use swc_tree_marks::swc_tree_items::{Boxed, Items, Text};
use swc_tree_marks::{Ident, Span};

/// A node of the syntax tree, a leaf of one, or a list of nodes.
///
/// What stands in the fields of each kind is said by the table: `fields_of`, `kinds_of`, `words_of`.
/// A node is built and taken apart with no copy of what is below it.
#[derive(Debug, Drop)]
pub enum Node {
    /// What an optional field holds where there is nothing.
    Absent,
    Flag(bool),
    Word(Word),
    Text(Text),
    Span(Span),
    List(Items<Node>),
    /// An identifier, of a kind for which `is_identifier` holds.
    Identifier(Kind, Boxed<Ident>),
    /// A node of any other kind, with its fields in the table's order.
    Tree(Kind, Items<Node>),
}
