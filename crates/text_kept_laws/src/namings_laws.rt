//! What a text asks of a tree, where a renamer gives names.
//!
//! `specs/Laws.antt` states the laws. Each is the contract of a function that does nothing, so that it is proved.

ghost use Rattle.text_kept_laws.specs.Namings.{HygieneGivesNewWords, HygieneKeepsShape, HygieneKeepsSpelling, RenamingKeepsShape, RenamingKeepsSpelling};

/// A renamer keeps lengths.
pub fn renaming_keeps_shape()
    ensures { RenamingKeepsShape }
{}

/// A renamer whose texts are names keeps leaves and names.
pub fn renaming_keeps_spelling()
    ensures { RenamingKeepsSpelling }
{}

/// Hygiene keeps lengths.
pub fn hygiene_keeps_shape()
    ensures { HygieneKeepsShape }
{}

/// The texts that hygiene gives are names.
pub fn hygiene_gives_new_words()
    ensures { HygieneGivesNewWords }
{}

/// Hygiene keeps leaves and names.
pub fn hygiene_keeps_spelling()
    ensures { HygieneKeepsSpelling }
{}
