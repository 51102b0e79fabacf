//! A text as a page for people: each variable in a colour of its own.
#![tactic(auto)]

mod drawn;

pub use drawn::{Use, page};
