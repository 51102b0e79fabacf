//! The resolver: gives each identifier of a program the mark of the scope that it is declared in or means.
#![tactic(auto)]

mod build;
mod pass;
pub mod scope;

pub use build::resolver;
pub use pass::Resolver;
pub use swc_base_resolver_program::{marks_ok, resolve_program};
