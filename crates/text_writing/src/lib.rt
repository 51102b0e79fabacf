//! Texts of trees that a text has; of any other, what it lacks and where.
#![tactic(auto)]

mod place;
mod write;

pub use place::place_of;
pub use write::{WriteFault, write_text};
