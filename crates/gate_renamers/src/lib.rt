//! Renamers that the gate's rows use: `Letters`, an example of one that a user writes, and those that only tests want.
#![tactic(auto)]

mod analysed;
mod by_letter;
mod by_number;
mod by_text;
mod by_use_rows;
mod large;
mod name_rows;
mod rows;

pub use analysed::read_off;
pub use by_letter::Letters;
pub use by_number::{Numbered, Refusing};
pub use by_text::Suffixed;
pub use rows::holds;
