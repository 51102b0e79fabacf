//! Short texts for ids, in order or by how often they are used.
//!
//! `short_text` writes the text of a counter, `counter_at` finds the counter of a text's place, and `ShortTexts` gives each id that text; which
//! texts there are, and in which order, is said in `specs/ShortTexts`. `TextsByUse` gives an id a short text of its own first, and then the others
//! in order (`specs/ByUse`). Which text is an id's own is chosen by `texts_by_use`: those that are used most get the shortest, written in the
//! characters that are met most in what stays. Of that choice nothing is promised.
#![tactic(auto)]

mod alphabet;
mod by_use;
mod characters;
mod chosen;
mod ids;
mod known;
mod read;
mod short;
mod short_texts;
mod slots;

pub use by_use::TextsByUse;
pub use chosen::{texts_by_use, texts_of_program};
pub use short::{counter_at, short_text};
pub use short_texts::ShortTexts;
