//! What the programs of the gate have in common: rows of three lines, programs that were read, comments that note their moves, and
//! works that are refused memory.
#![tactic(auto)]

mod deep;
mod given;
mod notes;
mod refused;
mod rows;

pub use given::{Given, Program, Settings};
pub use notes::{Notes, room};
pub use refused::{Asked, Said, Work};
pub use rows::{Answers, arguments, replay};
