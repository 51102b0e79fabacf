//! What a text asks of a tree, and which passes keep.
//!
//! `specs/Laws.antt` states the laws. Each is the contract of a function that does nothing, so that it is proved.

ghost use Rattle.text_kept_laws.specs.Resolved.{ResolvedIsAsShaped, ResolvedIsAsSpelled, TextsAreAsShaped, TextsAreAsSpelled};

/// A tree without contexts is shaped exactly if the tree is.
pub fn texts_are_as_shaped()
    ensures { TextsAreAsShaped }
{}

/// A tree without contexts is spelled exactly if the tree is.
pub fn texts_are_as_spelled()
    ensures { TextsAreAsSpelled }
{}

/// What a resolver answers is shaped exactly if its program is.
pub fn resolved_is_as_shaped()
    ensures { ResolvedIsAsShaped }
{}

/// What a resolver answers is spelled exactly if its program is.
pub fn resolved_is_as_spelled()
    ensures { ResolvedIsAsSpelled }
{}
