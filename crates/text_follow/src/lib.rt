//! Texts held against the pieces of trees.
#![tactic(auto)]

mod ending;
mod follow;
mod plain;
mod spell;
mod stand;

pub use ending::ending_behind;
pub use follow::{follows, fresh_behind, take};
pub use spell::goal_of;
pub use stand::Reader;
