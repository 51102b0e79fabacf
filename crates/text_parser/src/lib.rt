//! JavaScript read into trees.
//!
//! Nothing is promised of the answer but that there is one. `read_text` of crate text_source holds what was read against the
//! text, so that a wrong answer here is a refusal there; who calls `parse` alone has no promise.
#![tactic(auto)]

mod expressions;
mod functions;
mod heads;
mod members;
mod modules;
mod objects;
mod primary;
mod programs;
mod statements;
mod steps;

pub use programs::{Goal, parse};
pub use text_reader::{Expected, Language, TextFault};
