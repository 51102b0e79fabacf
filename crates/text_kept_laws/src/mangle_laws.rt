//! What a text asks of a tree, where a program gets short names.
//!
//! `specs/Laws.antt` states the laws. Each is the contract of a function that does nothing, so that it is proved.

ghost use Rattle.text_kept_laws.specs.Mangle.{ManglingKeepsTexts, ShortTextsAreWords};

/// The texts that mangling gives are names.
pub fn short_texts_are_words()
    ensures { ShortTextsAreWords }
{}

/// Mangling keeps lengths, leaves and names.
pub fn mangling_keeps_texts()
    ensures { ManglingKeepsTexts }
{}
