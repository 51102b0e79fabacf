//! A tree's tokens, one after another: kept as a list, or held against a text.
#![tactic(auto)]

mod form;
mod frame;
mod leaf;
mod sink;
mod tokens;
mod walk;

pub use frame::first_span;
pub use tokens::{framed_pieces, pieces, tree_stands};
