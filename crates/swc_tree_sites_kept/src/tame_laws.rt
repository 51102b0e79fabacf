//! A module that can be written down is tame once it is stripped, so its normal form is left of it; a script is tame too.
//!
//! `specs/Laws.antt` states the laws. Each is the contract of a function that does nothing, so that it is proved.

ghost use Rattle.swc_tree_sites_kept.specs.Tame.{WritableModulesAreTame, WritableNormalFormIsLeft, WritableScriptsAreTame};

/// A module that can be written down is tame once it is stripped.
pub fn writable_modules_are_tame()
    ensures { WritableModulesAreTame }
{}

/// A script that can be written down is tame once it is stripped, if no plain function then stands in a block of sloppy
/// code.
pub fn writable_scripts_are_tame()
    ensures { WritableScriptsAreTame }
{}

/// The normal form of a module that can be written down is left of the module.
pub fn writable_normal_form_is_left()
    ensures { WritableNormalFormIsLeft }
{}
