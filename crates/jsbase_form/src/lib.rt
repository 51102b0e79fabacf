//! The JSON form of syntax trees: definitions that the reader's and the writer's contracts cite, and
//! paths to faults.
//!
//! A node is an object with `type`, the name of its kind, and each field under its key. The
//! definitions stand in `specs/`, what follows from them in `proofs/`.
#![tactic(auto)]

mod by_numbers;
mod path;

pub use by_numbers::path_to;
pub use path::{FaultPath, Step};
