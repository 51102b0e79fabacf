//! Which ids meet where hygiene and the fixer have been.
//!
//! `specs/Laws.antt` states the laws. Each is the contract of a function that does nothing; a caller calls it, and then knows
//! the law.

ghost use Rattle.swc_base_renaming_laws.specs.KeptMeetings.{DuePairsKeepMeetings, StrippingAddsNoPairs};

/// A program with its due pairs has the same names, and the same ids meet in it.
pub fn due_pairs_keep_meetings()
    ensures { DuePairsKeepMeetings }
{}

/// In a program that is stripped no more ids meet, where a scope takes each binding.
pub fn stripping_adds_no_pairs()
    ensures { StrippingAddsNoPairs }
{}
