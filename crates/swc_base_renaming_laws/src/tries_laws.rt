//! How many texts are tried for an id before one is taken, said apart from how it is done.
//!
//! `specs/Laws.antt` states the laws. Each is the contract of a function that does nothing, so that it is proved.

ghost use Rattle.swc_base_renaming_laws.specs.Tries.{SpentAreCrowded, TriesAreFew, TriesByUnitsAreFew};

/// The counter that is taken for an id is at most as far past its start as there are preserved texts and ids that are named
/// before it, whether all names count or only those of a scope and of the scopes round it.
pub fn tries_are_few()
    ensures { TriesAreFew }
{}

/// And where something reads names, the same holds for each id of the program that gets a name, and for each of an outermost
/// unit without such a reader, of which names are given alone.
pub fn tries_by_units_are_few()
    ensures { TriesByUnitsAreFew }
{}

/// Where the counters are spent at an id, there are as many preserved texts and ids named before it as there are counters from its
/// start on.
pub fn spent_are_crowded()
    ensures { SpentAreCrowded }
{}
