//! Which ids a tree declares and where they occur, as a renamer sees them, and which new names they take.
//!
//! They are definitions, in `specs/`: `Analysis` says which scopes a renamer tells apart, which of them declares an id
//! and where an id occurs, `Order` in which order ids get their names, `Preserved` which texts no new name may be,
//! `Named` which new names they get, `Walk` how one walk lays out a tree's scopes and names, `Numbers` and `Read` what
//! is read off that. `Laws` is what is proved of the definitions: each law is the contract of a function that does nothing.
#![tactic(auto)]

mod analysis;
mod between;
mod hashed;
mod layout;
mod numbers;
mod own_names;
mod scopes;
mod walk;

ghost use Rattle.swc_base_rename_analysis.specs.Laws.{AddsFew, CostIsOne, EachTreesSitesAreInOrder, KeepsScopes, NamedFixesTheMap, NamedIsNotSpent};

pub use analysis::{Analysis, Site, analyse};
pub use layout::{Layout, Name, Region};
pub use numbers::Entry;
pub use scopes::ScopeKind;
pub use walk::lay_out;

/// A tree and a renamer leave one map, where all names count, and where only those of a scope and of the scopes round it do.
pub fn named_fixes_the_map()
    ensures { NamedFixesTheMap }
{}

/// Where a map is named by counters below a bound, they are not spent at it.
pub fn named_is_not_spent()
    ensures { NamedIsNotSpent }
{}

/// Sites are in a total order, in which no two that declare an id are level.
pub fn sites_are_in_order()
    ensures { EachTreesSitesAreInOrder }
{}

/// It costs one number to rename a scope.
pub fn cost_is_one()
    ensures { CostIsOne }
{}

/// A scope of the language that stands round a path is one of the analysis there, but for the cases of a `switch` and the
/// block of a function that is a branch of an `if`.
pub fn scopes_are_kept()
    ensures { KeepsScopes }
{}

/// A scope of the analysis that stands round a path is one of the language there, or that of a class expression, or the
/// body of a `for` statement.
pub fn few_scopes_are_added()
    ensures { AddsFew }
{}
