//! Marks written behind names, as in `a#2.3`: put into texts and found in them.
#![tactic(auto)]

mod cut;
mod find;
mod put;
mod sign;

pub use cut::{Cut, cut_signs};
pub use find::{Found, find_signs};
pub use put::{blank_signs, put_signs};
pub use sign::Sign;
