//! Programs whose names are made short.
//!
//! `mangle_program` gives the ids of a program short texts and clears its contexts; `specs/Mangled.antt` says what it answers, on top of
//! the definitions of `swc_base_rename_program`. Names of the program's scope (`own`) stay if they are to, and a script with strays
//! (`strays`) keeps all its names.
#![tactic(auto)]

mod mangle;
mod own;
mod strays;

pub use mangle::mangle_program;
pub use own::own_ids;
pub use strays::has_strays;

// Libraries below that crates above name through this one.
pub use swc_base_rename_program;
