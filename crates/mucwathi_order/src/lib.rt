//! What `mucwathi` is asked for, and why it makes nothing of a text, or says nothing of two.
#![tactic(auto)]

mod fault;
mod order;

pub use fault::{JudgeFault, RunFault};
pub use mucwathi_settings::{Command, Settings};
pub use order::{Memory, Order, Style};
pub use text_source::Goal;

// Libraries below that crates above name through this one.
pub use text_source;
