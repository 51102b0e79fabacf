//! Substitution: the names of a tree are given anew, as a map says.
//!
//! `specs/Substituted.antt` says what a tree becomes; `substitute` answers that tree.
#![tactic(auto)]

mod classes;
mod config;
mod contexts;
mod exports;
mod identifiers;
mod names;
mod pass;
mod place;
mod substitution;
mod unique;
mod written_out;

pub use config::Config;
pub use contexts::clear_contexts;
pub use names::Names;
pub use pass::substitute;
