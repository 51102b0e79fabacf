//! Whether what a tree says of where its leaves stand is so in its text.
#![tactic(auto)]

mod leaf;
mod stand;

pub use stand::{Misplaced, leaves_stand};
