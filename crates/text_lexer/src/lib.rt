//! The tokens of a JavaScript text (ECMA-262, 12).
#![tactic(auto)]

mod blank;
mod literal;
mod mark;
mod name;
mod number;
mod plain;
mod sign;
mod token;

pub use blank::{Comments, Skip, skip_blank, skip_piece};
pub use mark::{Mark, spelling};
pub use plain::{plain_mark, plain_name};
pub use sign::token_at;
pub use token::{Fault, Goal, TemplatePart, Token};
