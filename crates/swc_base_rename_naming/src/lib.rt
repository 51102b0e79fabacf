//! How the ids of a program get new texts, and what that stands on.
//!
//! `NewTexts` gives an id a text for each counter; all that is proved of names rests on the law of the trait, and on nothing of
//! an implementation. `free_text` takes the first text that is free, and a `ReverseMap` keeps which ids were given a text.
//! `names_in_order`, `names_by_scope` and `names_with_leaks` name the ids of a program by their numbers, by what it answers as
//! `Asked`, and `texts_by_id` makes a map of ids of the texts.
#![tactic(auto)]

mod asked;
mod by_id;
mod free;
mod in_order;
mod leaked;
mod nested;
mod new_texts;
mod reverse_map;
mod site;
mod texts;
mod tried;

pub use asked::{Asked, Nesting};
pub use by_id::texts_by_id;
pub use free::{Taken, free_text};
pub use in_order::names_in_order;
pub use nested::{names_by_scope, names_with_leaks};
pub use new_texts::{HygieneTexts, NewTexts};
pub use reverse_map::{Iter, ReverseMap};
pub use texts::numbered;
