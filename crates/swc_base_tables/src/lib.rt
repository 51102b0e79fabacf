//! Helpers, which lowered programs call, and how they come into a program.
//!
//! `specs/Helpers.antt` says how a helper is named, and `specs/Visits.antt` what a program is once it has its helpers.
#![tactic(auto)]

mod bodies;
mod inject;
mod names;

pub use bodies::HelperBodies;
pub use inject::{InjectHelpers, inject_helpers};
pub use names::{helper, helper_expr};
pub use swc_base_tables_helpers::{Helper, HelperData, Helpers};
