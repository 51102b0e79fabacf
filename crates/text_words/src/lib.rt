//! Whether a text is one token of a kind, as the leaves of a tree have it (ECMA-262, 12).
#![tactic(auto)]

mod regex;
mod reserved;
mod template;
mod token;

pub use regex::is_regex;
pub use reserved::is_reserved;
pub use template::is_template;
pub use token::{is_big_integer, is_hashbang, is_name, is_number, is_string};
