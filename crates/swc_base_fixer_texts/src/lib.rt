//! The fixer does not look into contexts.
//!
//! `specs/Laws.antt` states the law. It is the contract of a function that does nothing; a caller calls it, and then knows the law.
#![tactic(auto)]

ghost use Rattle.swc_base_fixer_texts.specs.Laws.{FixingNeedsNoContexts};

/// To fix a tree without its contexts is to fix it and take its contexts off.
pub fn fixing_needs_no_contexts()
    ensures { FixingNeedsNoContexts }
{}
