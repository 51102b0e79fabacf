//! Passes and calls as programs use them, as examples.
//!
//! `pass`: a pass of one's own, which gives a free `process` another text. `twice`: two calls one after the other, where the first promises what
//! the second takes. `accept`: a renaming by any tool that is taken only where it is one.
#![tactic(auto)]

mod accept;
mod pass;
mod twice;

pub use accept::accepted;
pub use pass::{RenamesProcess, rename_process};
pub use twice::{finish_and_chain, finish_and_chain_script};
