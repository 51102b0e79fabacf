//! The table: what each kind of node is called and holds, as data, and where its fields stand.
pub use swc_tree_node::{
    Class, Content, Field, Role, Slot, Word, WordClass, fields, fields_of, is_identifier, kinds_of,
    name_of, spelling_of, words_of,
};
