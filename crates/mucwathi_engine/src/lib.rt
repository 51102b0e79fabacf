//! The calls of `mucwathi_commands`, with what the laws promise of them.
//!
//! `specs/Headline.antt` says what.
#![tactic(auto)]

mod promised;

pub use promised::{cover_text, rewrite_text, rewrite_with_comments};
