//! The renamers of minifiers: ids get the shortest texts that scopes can share.
//!
//! `Shortest` gives them in order, `ShortestByUse` by how often ids are used.
#![tactic(auto)]

mod shortest;
mod shortest_by_use;

pub use shortest::Shortest;
pub use shortest_by_use::ShortestByUse;
