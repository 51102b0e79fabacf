//! What the fixer keeps of the names of a module, each with the scopes round it, and that it adds no context.
//!
//! `specs/Laws.antt` states the laws. Each is the contract of a function that does nothing, so that it is proved.
#![tactic(auto)]

ghost use Rattle.swc_base_fixer_sites.specs.Laws.{DuePairsKeepNames, FixerStaysClean, StrippingAnswersLosesNone};

/// A module with its due pairs has the names that it had, with the same scopes round them.
pub fn due_pairs_keep_names()
    ensures { DuePairsKeepNames }
{}

/// What stripping leaves of the fixer's answer has all its names, with the same scopes round them.
pub fn stripping_answers_loses_none()
    ensures { StrippingAnswersLosesNone }
{}

/// The fixer's answer to a tree whose contexts were emptied has none.
pub fn fixer_stays_clean()
    ensures { FixerStaysClean }
{}
