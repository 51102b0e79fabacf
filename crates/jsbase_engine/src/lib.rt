//! The engine of `jsbase`: its commands, with all that the laws of the passes promise of what they make.
#![tactic(auto)]

mod engine;
mod laws;
mod served;

pub use engine::run;
pub use jsbase_commands::{Command, Fault, Kind, ServeFault, report, words};
pub use served::serve;
