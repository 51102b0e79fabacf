//! Whether a program can be written down, once parentheses are set where they are due.
//!
//! The rules of `swc_base_writable_rules` say so, by a law: they differ from what "can be written down" says in two places alone, where
//! they take off pairs of parentheses, and no more of what stripping takes off; in all that fits the table that is the same.
#![tactic(auto)]

mod writable;

pub use writable::is_writable;
