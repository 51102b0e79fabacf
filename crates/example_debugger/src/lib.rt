//! A check that finds `debugger` statements, as an example of a check of one's own.
#![tactic(auto)]

mod check;

pub use check::{FindsDebugger, has_debugger};
