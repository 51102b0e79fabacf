//! What `mucwathi` makes of a program, and by what settings: nothing of texts.
#![tactic(auto)]

mod command;

pub use command::{Command, Settings};
