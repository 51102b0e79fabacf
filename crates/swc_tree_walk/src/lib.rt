//! What passes and lints over nodes share: the identifiers of a tree with as what each stands, a look for a node,
//! each node of a tree made anew, and nodes of a kind.
#![tactic(auto)]

mod finder;
mod identifiers;
mod kinds;
mod rewriter;

pub use finder::{Finder, any_has_node, has_node};
pub use identifiers::{Site, sites};
pub use kinds::node_of;
pub use rewriter::{Rewriter, rewrite};
