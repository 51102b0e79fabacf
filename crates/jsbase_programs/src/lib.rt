//! Reading programs: an envelope whose tree is a module or a script, and what a pass over it may rest on.
#![tactic(auto)]

mod programs;

pub use programs::{Goal, read_program};
