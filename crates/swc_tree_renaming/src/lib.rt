//! New texts for the names of a tree, and when they keep what is one name and what is two.
//!
//! `specs/Apart.antt` says when ids have texts apart, what a name belongs to, and when the names of a tree mean ids. The law of it
//! is the contract of a function that does nothing, so that it is proved.
#![tactic(auto)]

ghost use Rattle.swc_tree_renaming.specs.Apart.{RenamingKeepsIds};

/// A well-scoped module whose ids are given texts apart gets, from any resolver, one id at two places exactly if it
/// had one id there.
pub fn renaming_keeps_ids()
    ensures { RenamingKeepsIds }
{}
