//! Pairs that are not idle: without one the grammar does not derive the tree, or it stands for a reader. So is each pair
//! that the fixer sets in what can be written down.
//!
//! `specs/Sites` says what the grammar asks at each place of a tree, `specs/Reasons` in which trees each pair has a
//! reason to stand where it does; `specs/Laws` states the laws. Each is the contract of a function that does nothing, so
//! that it is proved.
#![tactic(auto)]

ghost use Rattle.swc_base_fixer_needs.specs.Laws.{DuePairsAreNeeded, FixedIsNeeded, HeadsAreNeeded, HeadsHaveReasons, LevelsAreNeeded, LevelsHaveReasons, ReasonsAreNeeds, ReasonsAreSeen, StartsHaveReasons, WritableNamesConstructors};

/// A pair that is seen and has a reason is needed or stands for a reader.
pub fn reasons_are_needs()
    ensures { ReasonsAreNeeds }
{}

/// In a tree of the table a pair that has a reason is seen.
pub fn reasons_are_seen()
    ensures { ReasonsAreSeen }
{}

/// Each pair of the first step has a reason to stand where it does.
pub fn levels_have_reasons()
    ensures { LevelsHaveReasons }
{}

/// Each pair of the first step is needed or stands for a reader.
pub fn levels_are_needed()
    ensures { LevelsAreNeeded }
{}

/// Each pair of the first two steps has a reason to stand where it does.
pub fn heads_have_reasons()
    ensures { HeadsHaveReasons }
{}

/// Each pair of the first two steps is needed or stands for a reader.
pub fn heads_are_needed()
    ensures { HeadsAreNeeded }
{}

/// In what can be written down each constructor has a name as its key.
pub fn writable_names_constructors()
    ensures { WritableNamesConstructors }
{}

/// Each due pair of a tree of the table has a reason to stand where it does.
pub fn starts_have_reasons()
    ensures { StartsHaveReasons }
{}

/// Each due pair is needed or stands for a reader.
pub fn due_pairs_are_needed()
    ensures { DuePairsAreNeeded }
{}

/// Each pair of the fixer's answer to what can be written down is needed or stands for a reader.
pub fn fixed_is_needed()
    ensures { FixedIsNeeded }
{}
