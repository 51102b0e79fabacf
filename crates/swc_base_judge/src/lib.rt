//! Whether two modules, or two scripts, are one but for the choice of the names that they bind.
//!
//! `swc_base_alpha` judges nodes, and says what a verdict tells; here are its calls for programs as callers hold them.
#![tactic(auto)]

mod calls;
mod judged;
mod judging;

pub use calls::{judge_module, judge_script};
pub use swc_base_alpha::{Difference, Verdict, Why};
