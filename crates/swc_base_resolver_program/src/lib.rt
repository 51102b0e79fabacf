//! Resolving a program that is given as a node: what each scope declares, and the mark of each identifier.
#![tactic(auto)]

mod collect;
mod env;
mod lookup;
mod marks;
mod names;
mod program;
mod walk;

pub use collect::{Stage, gather_program, gather_reached};
pub use env::{Env, Inside, Layer, Views, hoists, meets, taker, variable_scope};
pub use lookup::{Declarations, TakenNames};
pub use marks::marks_ok;
pub use names::ScopeNames;
pub use program::resolve_program;
