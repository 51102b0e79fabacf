//! Nodes of the syntax tree with their class as a type, and what opens and closes them.
//!
//! A `Tree<class::Expr>` is a node that fits the class of expressions, and a `Trees<class::Stmt>` a
//! list of statements; `Holes` are lists in which some may be left out. They cost nothing over the nodes that they hold, and no other node can be put
//! into one. `Tree::open` takes a node apart, one level deep, and `Opened::close` puts it together.
#![tactic(auto)]

pub mod class;
mod copies;
mod holes;
mod identifier;
mod leaves;
mod opened;
mod pairs;
mod place;
mod row;
mod tree;
mod trees;

pub use copies::{clone_five, clone_four, clone_three, clone_two};
pub use holes::Holes;
pub use leaves::{
    from_flag, from_optional_span, from_optional_text, from_span, from_text, to_flag,
    to_optional_span, to_optional_text, to_span, to_text,
};
pub use opened::Opened;
pub use pairs::Pairs;
pub use place::Place;
pub use row::{
    close_five, close_four, close_one, close_three, close_two, open_five, open_four, open_one,
    open_three, open_two,
};
pub use tree::{Tree, collect};
pub use trees::Trees;
