//! Lines and columns of a text.
#![tactic(auto)]

mod place;

pub use place::{Place, line_and_column};
