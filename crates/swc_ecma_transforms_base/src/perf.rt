//! Whether a program is to be handled at all.
pub use swc_tree::{Check, Checked, should_work};
