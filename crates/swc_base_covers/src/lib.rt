//! Whether what is promised of a chain of passes is promised of a program.
//!
//! `specs/Covered.antt` says what is asked of a program for that; `covers` decides it, and tells the first that fails.
#![tactic(auto)]

mod causes;
mod covering;
mod gap;
mod shown;

pub use covering::covers;
pub use gap::{Cause, Gap};
