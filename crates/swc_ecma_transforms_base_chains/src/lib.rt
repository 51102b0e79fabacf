//! The calls that run passes one after another.
//!
//! `finish_module` runs hygiene and then the fixer, `chain_module` the resolver before them; `swc_ecma_transforms_base` has
//! the same with a renamer of one's own in the place of hygiene. `specs/Finished.antt` and
//! `specs/Chained.antt` say what they make of a program and when they refuse one, `specs/Headline.antt` of
//! `swc_ecma_transforms_base_laws` what is promised of the answer.
#![tactic(auto)]

mod chain;
mod finish;
mod fixed;

pub use chain::{chain_module, chain_script};
pub use finish::{finish_module, finish_script};
pub use fixed::{fix_module, fix_script};

// Libraries below that crates above name through this one.
pub use swc_ecma_transforms_base_laws;
