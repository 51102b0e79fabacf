//! Where names may be given anew although something reads them as the program runs.
//!
//! `specs/Eval.antt` says what reads names: a direct `eval` and `with`. `specs/Units.antt` says which functions and classes are
//! units, and what a tree becomes where each outermost unit without such a reader has its names given alone.
#![tactic(auto)]

mod eval;
mod units;

pub use eval::has_eval;
pub use units::{Alone, rename_units};
