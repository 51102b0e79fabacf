//! The plain text of number literals: one text for each exact value, however it is spelled.
//!
//! `specs/Numbers.antt` says what the value of a literal is.
#![tactic(auto)]

mod digits;
mod plain;
mod read;

pub use plain::{plain_big, plain_number};
