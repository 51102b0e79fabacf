//! Names for the ids of a program: its tree as a renamer makes it, and as hygiene does.
//!
//! `specs/Renamed.antt` says what a renamer makes of a tree, on top of the definitions of `swc_base_rename_analysis` and
//! `swc_base_rename_substitution`: the map is the one that is `Named`, and the tree becomes what is `Substituted` by it.
//! `specs/Cost.antt` says what it costs to rename a scope, by what was read off a program, and that this is the cost of the
//! definitions.
#![tactic(auto)]

mod alone;
mod behind;
mod cost;
mod kept;
mod left;
mod mode;
mod named;
mod program;
mod rename;
mod spans;
mod surrounding;
mod top_mark;

pub use cost::{costs_are_those_of_the_definitions, rename_cost};
pub use mode::Mode;
pub use rename::{Renamer, hygiene_program, rename_program, rename_read};
