//! Which names count where something reads names and units are named alone, and what bounds the texts that are tried, said apart
//! from how it is done.
//!
//! `specs/Laws.antt` and `specs/Bounds.antt` state the laws. Each is the contract of a function that does nothing, so that it is
//! proved.

ghost use Rattle.swc_base_renaming_laws.specs.Units.{MapsByUnitsAreFlat};
ghost use Rattle.swc_base_renaming_laws.specs.Bounds.{MapsHaveBounds, RefusalsAreOfCrowding};

/// Where something reads names in a well-scoped tree that fits some place, as each module and each script does, the map of the
/// tree and that of each unit that is named alone are the same where all earlier names count at a scope, and where only those of
/// the scope and of the scopes round it do.
pub fn maps_by_units_are_flat()
    ensures { MapsByUnitsAreFlat }
{}

/// Of what a renamer makes of a tree that fits some place: few texts were tried for each id, and on a well-scoped tree each map is
/// the same where all names count at a scope, and where only those of the scope and of the scopes round it do.
pub fn maps_have_bounds()
    ensures { MapsHaveBounds }
{}

/// Where the counters are spent at an id, there are as many preserved texts and ids named before it as there are counters from its
/// start on.
pub fn refusals_are_of_crowding()
    ensures { RefusalsAreOfCrowding }
{}
