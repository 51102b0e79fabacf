//! Which ids meet in a tree whose names are given anew.
//!
//! `specs/Laws.antt` states the law. It is the contract of a function that does nothing; a caller calls it, and then knows the
//! law.

ghost use Rattle.swc_base_renaming_laws.specs.NamedMeetings.{SubstitutionKeepsMeetings};

/// In a tree that fits some place, whose names are given anew, with no class that keeps its name, ids meet that are the new ones of ids that met.
pub fn substitution_keeps_meetings()
    ensures { SubstitutionKeepsMeetings }
{}
