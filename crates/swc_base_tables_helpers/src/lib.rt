//! The helpers that lowered programs call: what each is called, on which it depends, and which of them a program was given.
//!
//! `specs/Table.antt` is the table; `specs/Closure.antt` says what a helper needs.
#![tactic(auto)]

mod closed;
mod helper;
mod helpers;
mod names;

pub use helper::Helper;
pub use helpers::{HelperData, Helpers};
