//! Early errors of the names of a program, and what is asked of the names of a script, decided.
//!
//! `claims` says in which scope an identifier claims its name, and `walk` whether two claims clash; `sought` looks for identifiers
//! one by one, `labels` for labels that name functions. `errors` and `scripts` ask one after another.
#![tactic(auto)]

mod claims;
mod errors;
mod labels;
mod scripts;
mod sought;
mod walk;

pub use errors::{NameError, error_of_names};
pub use scripts::{ScriptFault, unplain_part};

// Libraries below that crates above name through this one.
pub use swc_base_scope_checks;
