//! The syntax tree as one recursive type, and the table of what stands where in it.
#![tactic(auto)]

mod changed;
mod compare;
mod copies;
pub mod fields;
mod kind;
mod node;
mod parts;
mod shown;
mod slot;
mod table;

pub use copies::copy_nodes;
pub use kind::{Class, Kind, Word, WordClass};
pub use node::Node;
pub use slot::{Content, Field, Role, Slot};
pub use table::{fields_of, is_identifier, kinds_of, name_of, spelling_of, words_of};

// Libraries below that crates above name through this one.
pub use swc_tree_marks;
pub use swc_tree_marks::swc_tree_items;
