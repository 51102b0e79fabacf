//! Rows and laws of the definitions of `swc_tree_grammar`, in a crate of their own so that no pass waits for them.
//!
//! `proofs/*Rows.antt` are small trees put through the definitions, each with what must come out. `specs/` has the
//! tests of what each step of the due pairs settles: `Levelled`, `Headed`, `Started`. `specs/Laws.antt` states laws:
//! each step settles what it is for, and the tests together make a writable tree one that the grammar derives. Each
//! is the contract of a function that does nothing, so that it is proved.
#![tactic(auto)]

ghost use Rattle.swc_tree_grammar_laws.specs.Laws.{BlockedIsPlain, HeadsAreSettled, LevelsAreSettled, StartsAreSettled, TestsAddUp};

/// After the first step each expression is what its place asks.
pub fn levels_are_settled()
    ensures { LevelsAreSettled }
{}

/// After the second step no `in` and no `async` stands bare in a head.
pub fn heads_are_settled()
    ensures { HeadsAreSettled }
{}

/// After the third step statements, default exports and arrow bodies begin as they may.
pub fn starts_are_settled()
    ensures { StartsAreSettled }
{}

/// What fits the table is plain once its branches have their blocks.
pub fn blocked_is_plain()
    ensures { BlockedIsPlain }
{}

/// The grammar derives a plain and writable tree that passes the tests of the three steps.
pub fn tests_add_up()
    ensures { TestsAddUp }
{}
