//! The characters of a JavaScript text, and the classes that its lexical grammar tells apart.
#![tactic(auto)]

mod character;
mod classes;

pub use character::{
    after_line_end, begins_line_end, behind, byte_at, first, past_byte, point, width,
};
pub use classes::{is_name_part, is_name_start, is_space};
