//! The passes of swc's `swc_ecma_transforms_base` under its module paths, and the calls that run them one after another.
//!
//! `finish_module`, `chain_module` and those of scripts are those of `swc_ecma_transforms_base_chains`; `finish_with_module`,
//! `chain_with_module` and their like name by a renamer of one's own in the place of hygiene. `specs/Finished.antt` and `specs/Chained.antt` of
//! that crate say what they make of a program and when they refuse one, `specs/Headline.antt` of `swc_ecma_transforms_base_laws` what is
//! promised of the answer.
//!
//! `mangle_module` and `mangle_script` do what `jsbase mangle` does to a tree: they resolve a program, give its ids short texts and set its
//! parentheses anew. `specs/Mangled.antt` says what they make of it and why they refuse it; they promise of a source what `chain_module` and
//! `chain_script` do, but that a second run changes nothing. `covers_module` and `covers_script` tell whether what these promise is promised of
//! a program.
#![tactic(auto)]

pub mod assumptions;
mod chain_with;
mod covering;
pub mod ext;
pub mod feature;
mod finish_with;
pub mod fixer;
pub mod helpers;
pub mod hygiene;
pub mod native;
mod nodes;
pub mod pass;
pub mod perf;
mod programs;
pub mod rename;
pub mod resolver;
pub mod scope;

pub use chain_with::{chain_with_module, chain_with_script};
pub use covering::{covers_module, covers_script};
pub use finish_with::{finish_with_module, finish_with_script};
pub use programs::{mangle_module, mangle_script};
pub use swc_base_covers::{Cause, Gap};
pub use swc_base_rename_substitution::Config;
pub use swc_ecma_transforms_base_chains::{
    chain_module, chain_script, finish_module, finish_script,
};
pub use swc_tree::{Comments, EsVersion, Globals, Mark, Module, NoComments, PassError, Script};
