//! What leads from the walk over a tree to the definitions by paths of scopes, of who declares an id and of where it occurs.
//!
//! Each law is the contract of a function that does nothing: scopes are nested (`specs/Laws`), the layout of a tree is placed
//! (`specs/Placed`), and what is read off it means the definitions (`specs/Means`).
#![tactic(auto)]

ghost use Rattle.swc_base_rename_analysis_laws.specs.Laws.{EachTreesScopesAreNested};
ghost use Rattle.swc_base_rename_analysis_laws.specs.Means.{EachReadingMeans};
ghost use Rattle.swc_base_rename_analysis_laws.specs.Placed.{EachLayoutIsPlaced};

/// What stands round a scope stands round all in it; of two scopes round one path one is the other or stands round it; and a
/// scope is entered before those in it.
pub fn scopes_are_nested()
    ensures { EachTreesScopesAreNested }
{}

/// The scopes and the names of a tree's layout are those of the tree, each at its number: a name is met where it stands, and in
/// the stretch of a scope stand the names that stand in the scope.
pub fn layouts_are_placed()
    ensures { EachLayoutIsPlaced }
{}

/// Sites, ids and loose texts that are read off a tree are those of the definitions by paths, and sites are in the order in which
/// ids get their names.
pub fn readings_mean()
    ensures { EachReadingMeans }
{}
