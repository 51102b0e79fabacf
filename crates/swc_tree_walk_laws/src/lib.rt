//! What a list says that is made of a program's identifiers, as lints and passes make them.
//!
//! `specs/Filtered.antt` states the law, the contract of a function that does nothing, so that it is proved. `proofs/Lists.antt` has what is wanted
//! beside it, of what a list contains that another gives by a test or a map.
#![tactic(auto)]

ghost use Rattle.swc_tree_walk_laws.specs.Filtered.{FilteredSitesStand};

/// An identifier is among those of a program's that pass a test exactly if it passes, and stands at some path.
pub fn filtered_sites_stand()
    ensures { FilteredSitesStand }
{}
