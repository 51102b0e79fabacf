//! The helpers that a program was given, brought into it.
//!
//! `specs/Given.antt` says which bodies helpers have, and which helpers go in, in which order.
#![tactic(auto)]

mod bodies;
mod inject;

pub use bodies::Bodies;
pub use inject::inject_helpers;
