//! What the strings and templates of a JavaScript text stand for.
#![tactic(auto)]

mod raw;
mod value;

pub use raw::{make_raw, raw_is};
pub use value::{CookError, Flaw, cook, cooks_to, has_good_escapes};
