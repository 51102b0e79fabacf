//! What a text asks of a tree, where names are given anew.
//!
//! `specs/Laws.antt` states the laws. Each is the contract of a function that does nothing, so that it is proved.

ghost use Rattle.text_kept_laws.specs.Renames.{NewNamesKeepShape};

/// A tree that fits its place and is shaped still is with new names.
pub fn new_names_keep_shape()
    ensures { NewNamesKeepShape }
{}
