//! What is asked of the names of a program, decided: whether a `var`, or a plain function in a block of sloppy code, meets a catch
//! parameter of its name.
//!
//! `walk` looks at each identifier in its place, with the scopes that are open there; `barrier` says what a variable may not pass on
//! its way out.
#![tactic(auto)]

mod barrier;
mod caught;
mod walk;

pub use barrier::Barrier;
pub use caught::{catches_name, keeps_variable};
pub use walk::{Question, has_identifier};
