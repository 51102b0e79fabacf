//! What a tree's normal form keeps.
//!
//! `specs/Laws.antt` states the laws. Each is the contract of a function that does nothing, so that it is proved.
#![tactic(auto)]

ghost use Rattle.swc_base_normal_form_laws.specs.Laws.{NormalFormAddsNoTypes, NormalFormIsClean, NormalFormIsProgram};

/// Where no identifier of a tree has a context, none of its normal form has one.
pub fn normal_form_is_clean()
    ensures { NormalFormIsClean }
{}

/// Where no node of types stands in a tree, none stands in its normal form.
pub fn normal_form_adds_no_types()
    ensures { NormalFormAddsNoTypes }
{}

/// The normal form of a module or a script opens the scope of a program.
pub fn normal_form_is_program()
    ensures { NormalFormIsProgram }
{}
