//! What is promised of what each command of `mucwathi` makes of a program, by the laws of the passes.
#![tactic(auto)]

mod laws;

pub use laws::{promises_are_kept, targets_are_spared, texts_are_kept, tokens_are_kept};
