//! Where the names that hygiene gives stay as they are when it runs again.
//!
//! `specs/Laws.antt` states the laws. Each is the contract of a function that does nothing; a caller calls it, and then knows
//! the law.

ghost use Rattle.swc_base_renaming_laws.specs.Settled.{BlocksAddNoPairs, HygieneKeepsApart, HygieneTellsMetApart, MeetingsAreMet, OneScopeDeclares, PairsMeet, ProgramsTakeAll};
ghost use Rattle.swc_base_renaming_laws.specs.SettledLabels.{LabelsCarryApart};

/// One scope of the analysis declares an id of a well-scoped plain program.
pub fn one_scope_declares()
    ensures { OneScopeDeclares }
{}

/// The texts that hygiene gives the ids of a well-scoped plain program are apart where ids meet.
pub fn hygiene_tells_met_apart()
    ensures { HygieneTellsMetApart }
{}

/// Where the texts of a well-scoped tree are apart where ids meet, hygiene gives each id its own.
pub fn hygiene_keeps_apart()
    ensures { HygieneKeepsApart }
{}

/// Where new texts are apart where ids meet, and another tree carries these ids as labels, its own texts are apart where its ids
/// meet.
pub fn labels_carry_apart()
    ensures { LabelsCarryApart }
{}

/// Ids that meet by the paths of a program are pairs of the fold over it.
pub fn meetings_are_met()
    ensures { MeetingsAreMet }
{}

/// Pairs of the fold over a program are ids that meet by its paths.
pub fn pairs_meet()
    ensures { PairsMeet }
{}

/// A tree in which a scope takes each binding, with blocks round its branches, has no other pairs.
pub fn blocks_add_no_pairs()
    ensures { BlocksAddNoPairs }
{}

/// A program takes all that is bound in it.
pub fn programs_take_all()
    ensures { ProgramsTakeAll }
{}
