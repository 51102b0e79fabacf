//! Owned lists, boxes and text that contracts see as plain data.
//!
//! A tree that is built of these has no pointer, capacity or allocator in its value, so a contract
//! can say that one tree equals another, or what a definition computes from it. `specs/formers` lets
//! a type hold itself through `Items` and `Boxed`.
#![tactic(auto)]

mod boxed;
mod items;
mod short;
mod text;

pub use boxed::Boxed;
pub use items::Items;
pub use text::Text;
