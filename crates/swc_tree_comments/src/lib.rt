//! The comments of a source text, which passes move along with the nodes that they stand at.
#![tactic(auto)]

mod comments;
mod moves;

pub use comments::{Comments, NoComments};
pub use moves::Move;
