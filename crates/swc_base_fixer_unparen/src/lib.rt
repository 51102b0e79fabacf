//! Takes parentheses off a tree, and with them what is idle in sequences.
#![tactic(auto)]

mod blocks;
mod comments;
mod pairs;
mod pass;
mod sequence;
mod stripping;
mod targets;

pub use blocks::{add_blocks, takes_else};
pub use comments::move_pairs;
pub use pairs::pairs_of;
pub use pass::{remove_parens, remove_parens_with};
pub use sequence::items_of;
pub use stripping::strip;
pub use targets::{all_bare, is_target};
