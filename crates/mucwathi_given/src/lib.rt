//! Programs that are given with marks, and what the commands of `mucwathi` make of them: nothing of texts.
//!
//! They are given as envelopes, which `jsbase` reads and writes as JSON.
#![tactic(auto)]

mod json;
mod make;

pub use jsbase_programs::Goal as ProgramGoal;
pub use jsbase_reader::Envelope;
pub use json::{TreeFault, read_tree, write_tree};
pub use make::make_given;
