//! What each command of `mucwathi` makes of a program that was read, by the passes.
#![tactic(auto)]

mod passes;

pub use passes::{config_of, make, own_marks, resolve, top, unresolved};
