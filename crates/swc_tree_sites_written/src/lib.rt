//! What is left of a module that is written out: the same names with the same scopes round them.
//!
//! `specs/Laws.antt` states the laws. Each is the contract of a function that does nothing, so that it is proved.
#![tactic(auto)]

ghost use Rattle.swc_tree_sites_written.specs.Laws.{NormalFormIsLeft, WrittenItemKeepsNames, WrittenOutIsLeft, WrittenOutLosesNone};

/// An item of a module, written out, has the names that it had.
pub fn written_item_keeps_names()
    ensures { WrittenItemKeepsNames }
{}

/// A module, written out, is left of the module, and the program takes the same.
pub fn written_out_is_left()
    ensures { WrittenOutIsLeft }
{}

/// A module, written out, has all the names that it had, and its scopes.
pub fn written_out_loses_none()
    ensures { WrittenOutLosesNone }
{}

/// The normal form of a module is left of the module, where the stripped module is tame.
pub fn normal_form_is_left()
    ensures { NormalFormIsLeft }
{}
