//! Lists of names and of comments, one a line, and what names are given anew.
#![tactic(auto)]

mod changes;
mod cursor;
mod lists;

pub use changes::{Change, Occurrence, changes_between};
pub use lists::{FreeName, list_names, list_renamed, tell_lost};
