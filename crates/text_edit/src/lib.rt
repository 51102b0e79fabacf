//! Texts edited as their trees change: what two trees have in common stays in the text as it is, with its layout and comments.
#![tactic(auto)]

mod align;
mod alike;
mod blanks;
mod edge;
mod edit;
mod fault;
mod guess;
mod walk;

pub use edit::{edit_text, edit_text_from};
pub use fault::EditFault;
