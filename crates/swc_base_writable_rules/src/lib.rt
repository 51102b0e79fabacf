//! Rules that say whether a program can be written down, once parentheses are set where they are due: what the grammar and its early
//! errors ask of a program besides levels, first tokens and bare `in`.
//!
//! `rule` says what is asked of a node, and what of each of its fields, `ask` what an ask looks at. `names`, `reserved`, `patterns`, `members`
//! and `statements` look at a node and what stands right below it; `sound` goes through the tree.
#![tactic(auto)]

mod ask;
mod members;
mod names;
mod patterns;
mod reserved;
mod round;
mod rule;
mod sound;
mod statements;

pub use ask::{Ask, Look, Row, look_at};
pub use names::is_sound_name;
pub use round::Round;
pub use rule::{Rule, rule_of};
pub use sound::keeps_rules;
