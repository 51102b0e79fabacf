//! When two programs are one but for the choice of the names that they bind.
//!
//! `specs/Alpha.antt` says it, `specs/Laws.antt` states the laws. Each is the contract of a function that does nothing, so that it
//! is proved.
#![tactic(auto)]

ghost use Rattle.swc_base_alpha_laws.specs.Laws.{AlphaIsReflexive, AlphaIsSymmetric, AlphaIsTransitive, IdsDecide, NamesStandForTheirIds, OneTextIsEnough, ResolversAgree};

/// Each program is one with itself.
pub fn alpha_is_reflexive()
    ensures { AlphaIsReflexive }
{}

/// If it is one with another, that one is with it.
pub fn alpha_is_symmetric()
    ensures { AlphaIsSymmetric }
{}

/// And with each that the other is one with.
pub fn alpha_is_transitive()
    ensures { AlphaIsTransitive }
{}

/// Two names of a program stand for one thing exactly if a resolver gives them one id.
pub fn names_stand_for_their_ids()
    ensures { NamesStandForTheirIds }
{}

/// Two resolvers give the same names of a program one id.
pub fn resolvers_agree()
    ensures { ResolversAgree }
{}

/// Whether two programs are one but for names is told by their outlines and the ids that resolvers find in them.
pub fn ids_decide()
    ensures { IdsDecide }
{}

/// Two programs of one outline whose identifiers have one text each are one but for names: spans don't matter.
pub fn one_text_is_enough()
    ensures { OneTextIsEnough }
{}
