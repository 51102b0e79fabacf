//! Expressions of a tree read anew as patterns, in place.
#![tactic(auto)]

mod patterns;

pub use patterns::{PatternError, Reading, is_simple_target, parameters_of, pattern_of};
