//! Whether the grammar of ECMA-262 derives a tree, as it stands, with parentheses as nodes of their own.
//!
//! `rule` says what is asked of a node itself, and what of each of its fields, `ask` what an ask looks at: by `demand` how tightly an
//! expression binds, which `level` says, by `start` what it begins with, by `form` which statement may stand where. `grammar`
//! goes through the tree.
#![tactic(auto)]

mod ask;
mod context;
mod demand;
mod form;
mod grammar;
mod level;
mod rule;
mod start;

pub use ask::{Ask, Look, Row, look_at};
pub use context::Context;
pub use demand::Demand;
pub use grammar::derives;
pub use rule::{Rule, rule_of};
pub use start::begins_with_let_bracket;
