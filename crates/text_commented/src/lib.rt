//! Texts of trees with comments: each is written where the node begins that it leads, or stops that it trails.
#![tactic(auto)]

mod check;
mod choose;
mod fault;
mod fit;
mod frames;
mod last;
mod left;
mod lines;
mod noted;
mod order;
mod print;
mod remark;
mod sites;

pub use choose::remarks_of;
pub use fault::SetFault;
pub use left::{Left, Why};
pub use print::{Printed, print_text_with_comments, print_text_with_those_of};
pub use remark::{At, Remark};
