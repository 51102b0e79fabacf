//! Texts of trees.
#![tactic(auto)]

mod bytes;
mod lay_out;
mod mark_text;
mod print;

pub use bytes::Bytes;
pub use lay_out::{Layout, Writer, text_of_pieces};
pub use print::{PrintFault, print_text};
