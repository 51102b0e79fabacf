//! What the places of expressions ask of them, and whether an expression is so (ECMA-262, 13.2 to 13.16).
//!
//! `level` says how tightly an expression binds, `family` which kinds a test takes together, and `demand` what the sides of an operator and
//! the object of a member ask.
#![tactic(auto)]

mod demand;
mod family;
mod level;

pub use demand::{Test, behind_operator, left_side, may_be_new, meets, object, right_side};
pub use family::{Family, is_of};
pub use level::{at_least, called_field, is_absent, is_in, level_of_word, word_of};
