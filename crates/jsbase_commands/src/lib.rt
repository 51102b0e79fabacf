//! The commands of `jsbase`: from the bytes of an envelope to the bytes of an envelope, and from a reader to a writer.
#![tactic(auto)]

mod arguments;
mod commands;
mod covers;
mod fault;
mod judge;
mod mangle;
mod served;

pub use arguments::{Command, Kind, words};
pub use commands::run;
pub use fault::{Fault, ServeFault, report};
pub use served::serve;
