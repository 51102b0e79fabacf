//! What a tree is written with: the tokens of its text, in their order.
#![tactic(auto)]

mod item;
mod keyword;
mod layout;
mod piece;
mod sign;

pub use item::{Ending, Form, Item, Many};
pub use keyword::{Keyword, keyword_text};
pub use layout::{apart_layout_of, layout_of};
pub use piece::{Frame, Gap, Piece};
pub use sign::sign_of;
