//! The escapes and characters of the strings and templates of a JavaScript text.
#![tactic(auto)]

mod escape;

pub use escape::{Reading, Unit, next_unit, unicode_escape};
