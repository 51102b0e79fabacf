//! Whether a program is one that a text can have.
//!
//! `table` looks at what may stand in a place by the table, `spell` whether each leaf can be written as one token of its kind, `pinned` whether
//! a tree is the one that its tokens say, where the grammar alone leaves a choice: `astray` looks for nodes that no text is read as, `words`
//! goes by where `yield` and `await` are operators, `lax` looks for what only sloppy code has.
//!
//! `keeps` asks by one walk whether a program keeps all rules: that the grammar derives it, that it can be written down, and that each `yield`
//! and `await` in it is what it has to be. Each of the three has a walk of its own, in `text_derives`, `swc_base_writable_rules` and `pinned`,
//! which gives exact answers. A tree is larger than a processor's caches, so that each walk fetches it anew. Here a yes alone says something.
#![tactic(auto)]

mod asked;
mod asked_words;
mod astray;
mod check;
mod grammar;
mod keeps;
mod lax;
mod leaf;
mod leaves;
mod name;
mod patterns;
mod pinned;
mod spell;
mod table;
mod walk;
mod without;
mod words;
mod writing;

pub use astray::Astray;
pub use check::{Lack, check_tree};
pub use keeps::keeps_all_rules;
pub use lax::Lax;
pub use pinned::{is_pinned, is_pinned_if_straight};
pub use spell::{Misspelled, is_spelled};
pub use table::fits;
pub use without::fits_without;
pub use words::{Ask, Rule, Words, ask_at, is_name, rule_of, throughout};

// Libraries below that crates above name through this one.
pub use text_derives;
