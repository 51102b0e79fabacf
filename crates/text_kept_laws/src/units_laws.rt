//! What a text asks of a tree, where a renamer gives names and something may read them.
//!
//! `specs/Laws.antt` states the laws. Each is the contract of a function that does nothing, so that it is proved.

ghost use Rattle.text_kept_laws.specs.Units.{AnyHygieneKeepsTexts, AnyRenamingKeepsTexts};

/// A renamer whose texts are names keeps lengths, leaves and names.
pub fn any_renaming_keeps_texts()
    ensures { AnyRenamingKeepsTexts }
{}

/// So does hygiene.
pub fn any_hygiene_keeps_texts()
    ensures { AnyHygieneKeepsTexts }
{}
