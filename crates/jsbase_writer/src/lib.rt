//! Writing syntax trees as JSON.
//!
//! What a tree is written as stands in `jsbase_form`. The text is written straight from the tree, which
//! is only read.
#![tactic(auto)]

mod envelope;
mod gap;
mod members;
mod nodes;
mod numbers;
mod order;
mod verdict;

pub use envelope::write_envelope;
pub use gap::{write_covered, write_gap, write_placed_gap};
pub use nodes::write;
pub use verdict::{write_difference, write_same};
