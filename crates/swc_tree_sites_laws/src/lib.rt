//! What is left of a module that is stripped, and what ids what is left has.
//!
//! `specs/Laws.antt` states the laws. Each is the contract of a function that does nothing, so that it is proved.
#![tactic(auto)]

ghost use Rattle.swc_tree_sites_laws.specs.Laws.{IdsAreLeft, LeftKeepsIds, LeftMeanTheirIds, StrippedHasFewer, StrippedTakesTheSame};

/// A module that is stripped has fewer names, and what is round them stays.
pub fn stripped_has_fewer()
    ensures { StrippedHasFewer }
{}

/// The program takes what it took.
pub fn stripped_takes_the_same()
    ensures { StrippedTakesTheSame }
{}

/// What is left of a tree is left of it where both are read by ids.
pub fn ids_are_left()
    ensures { IdsAreLeft }
{}

/// What is left of a program and of its resolved answer has one id at two places in the one exactly if in the other,
/// where the new texts capture nothing.
pub fn left_keeps_ids()
    ensures { LeftKeepsIds }
{}

/// Two names of what is left of the answer have one text and one scope, or one text and no scope, exactly if what is left of the
/// program has one id for them.
pub fn left_mean_their_ids()
    ensures { LeftMeanTheirIds }
{}
