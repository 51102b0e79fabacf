//! What a text asks of a tree, where pairs of parentheses are taken off, and where due ones stand in their place.
//!
//! `specs/Laws.antt` states the laws. Each is the contract of a function that does nothing, so that it is proved.

ghost use Rattle.text_kept_laws.specs.Stripping.{FixerKeepsShape, FixerKeepsSpelling, UnparenKeepsShape, UnparenKeepsSpelling};

/// Without pairs lengths stay.
pub fn unparen_keeps_shape()
    ensures { UnparenKeepsShape }
{}

/// Without pairs leaves and names stay.
pub fn unparen_keeps_spelling()
    ensures { UnparenKeepsSpelling }
{}

/// The fixer keeps lengths.
pub fn fixer_keeps_shape()
    ensures { FixerKeepsShape }
{}

/// The fixer keeps leaves and names.
pub fn fixer_keeps_spelling()
    ensures { FixerKeepsSpelling }
{}
