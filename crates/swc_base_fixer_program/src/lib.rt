//! Sets the parentheses of a program anew: those that are due, and no other.
#![tactic(auto)]

mod fix;
mod moves;

pub use fix::{fix_parens, fix_parens_with};
