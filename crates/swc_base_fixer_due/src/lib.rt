//! Sets the pairs of parentheses that are due in a tree that has none.
//!
//! In three steps, each of which goes through the tree once, in place, as `pairing` says:
//!
//! - `levels` settles what each place asks of the expression in it. `row` says what that is, by `reader` and by what
//!   `swc_base_fixer_demands` has of places and levels; `settle` sets the pairs.
//! - `heads` looks for a bare `in` and a bare `async` in heads of `for`.
//! - `starts` looks at what statements, default exports and bodies of arrows begin with, which `start` says.
//!
//! `record` says where a pair stands, `keyed` how the contents of pairs are hashed there, `pair` makes one.
#![tactic(auto)]

mod due;
mod heads;
mod keyed;
mod levels;
mod pair;
mod pairing;
mod reader;
mod record;
mod row;
mod settle;
mod start;
mod starts;

pub use due::set_due_pairs;
pub use record::Record;
