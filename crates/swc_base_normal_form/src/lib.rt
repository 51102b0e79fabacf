//! The normal form of a tree: what may be left out is taken off, and all is written out that may be written shorter.
//!
//! `Normal` of `swc_tree_grammar` defines it.
#![tactic(auto)]

mod blocks;
mod exports;
mod forms;
mod names;
mod patterns;
mod written_out;

pub use written_out::normal_form;
