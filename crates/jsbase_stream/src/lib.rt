//! All that a reader gives, and all that a writer is to take, call by call: a call that fails is not made again.
//!
//! What is said of the bytes is said of readers and writers over memory, and of each other one whose bytes a contract names.
#![tactic(auto)]

mod input;
mod output;

pub use input::{InputFault, read_all};
pub use output::write_counted;
