//! Source maps (ECMA-426, version 3) of one text.
#![tactic(auto)]

mod digits;
mod encode;
mod names;
mod nodes;
mod positions;
mod quoted;

pub use encode::map_text;
pub use nodes::Mapped;
