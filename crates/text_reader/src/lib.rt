//! Where a parser stands in a JavaScript text, and the nodes that it makes.
//!
//! Nothing is promised of the nodes: crate text_parser says why.
#![tactic(auto)]

mod building;
mod fault;
mod keywords;
mod methods;
mod modifiers;
mod operators;
mod parser;
mod targets;
mod waiting;

pub use building::span_of;
pub use fault::{Expected, Language, TextFault};
pub use keywords::Keyword;
pub use modifiers::Modifiers;
pub use operators::{
    COMPARISON, LOOSEST, Operator, Prefix, assignment, binary_keyword, binary_mark, prefix_keyword,
    prefix_mark,
};
pub use parser::{Context, Next, Parser, begins_key, is_mark};
