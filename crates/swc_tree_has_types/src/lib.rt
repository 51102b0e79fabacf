//! Whether declarations of types, or types, stand in a tree.
#![tactic(auto)]

mod search;

pub use search::{any_has_types, has_types};
