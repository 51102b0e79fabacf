//! The names that ids get in order, by the numbers that are read off a tree, are those that the definitions give them.
//!
//! `specs/Rules` says by which rules the ids of a tree are named, as they follow from what is read off it; `specs/Laws` states
//! the laws. Each is the contract of a function that does nothing, so that it is proved.
#![tactic(auto)]

ghost use Rattle.swc_base_rename_naming_laws.specs.Laws.{NamesInOrderAreNamed, SpentInOrderIsSpent};

/// Where what is read off a tree means the definitions, the map that names in order make by numbers is the one that is named.
pub fn names_in_order_are_named()
    ensures { NamesInOrderAreNamed }
{}

/// And where the counters are spent by numbers, they are spent.
pub fn spent_in_order_is_spent()
    ensures { SpentInOrderIsSpent }
{}
