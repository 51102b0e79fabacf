//! What is asked of leaves and of names, where names are given anew.
//!
//! `specs/Laws.antt` states the laws. Each is the contract of a function that does nothing, so that it is proved.

ghost use Rattle.text_kept_laws.specs.Spelling.{NewNamesKeepSpelling};

/// A tree that fits its place and is spelled still is with new names that are names.
pub fn new_names_keep_spelling()
    ensures { NewNamesKeepSpelling }
{}
