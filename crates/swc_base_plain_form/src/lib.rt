//! The plain form of a program: its literals stand by what they are, however they are spelled.
//!
//! `specs/PlainForm.antt` says what it is, and `specs/Laws.antt` that it fits where the tree does, and that no context comes in, no
//! types and no places: each the contract of a function that does nothing, so that it is proved.
#![tactic(auto)]

mod directives;
mod plain;

ghost use Rattle.swc_base_plain_form.specs.Laws.{PlainFormAddsNoPlaces, PlainFormAddsNoTypes, PlainFormFits, PlainFormIsClean};

pub use plain::plain_form;

/// The plain form of what may stand in a place may stand there.
pub fn plain_form_fits()
    ensures { PlainFormFits }
{}

/// Where no identifier of a tree has a context, none of its plain form has one.
pub fn plain_form_is_clean()
    ensures { PlainFormIsClean }
{}

/// Where no node of types stands in a tree, none stands in its plain form.
pub fn plain_form_adds_no_types()
    ensures { PlainFormAddsNoTypes }
{}

/// Where something stands in a plain form, something stands in the tree.
pub fn plain_form_adds_no_places()
    ensures { PlainFormAddsNoPlaces }
{}
