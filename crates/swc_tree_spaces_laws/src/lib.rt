//! Where no declaration of a type stands, the two name spaces say what one did.
//!
//! `specs/Laws.antt` states the laws. Each is the contract of a function that does nothing, so that it is proved.
#![tactic(auto)]

ghost use Rattle.swc_tree_spaces_laws.specs.Laws.{OneNameSpaceWithoutTypes, ResolvedAlike, TypesAreTold};

/// In a program without nodes of types an identifier has the context that the two name spaces give it exactly if it has
/// the one that values alone give it.
pub fn one_name_space_without_types()
    ensures { OneNameSpaceWithoutTypes }
{}

/// What is resolved over both name spaces is, where no node of types stands, just what is resolved over values alone.
pub fn resolved_alike_without_types()
    ensures { ResolvedAlike }
{}

/// No node of types stands in a tree exactly if none is found in it.
pub fn types_are_told()
    ensures { TypesAreTold }
{}
