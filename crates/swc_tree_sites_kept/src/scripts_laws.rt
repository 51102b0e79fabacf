//! What stripping, writing out and setting pairs keep of the names of a script in which no plain function stands in a
//! block, catch body or case list of sloppy code.
//!
//! `specs/Laws.antt` states the laws. Each is the contract of a function that does nothing, so that it is proved.

ghost use Rattle.swc_tree_sites_kept.specs.Scripts.{FixedScriptsLoseNoName, PlainScriptsAreLeft};

/// The normal form of such a script is left of it, and its program takes the same.
pub fn plain_scripts_are_left()
    ensures { PlainScriptsAreLeft }
{}

/// The normal form of the fixer's answer to such a script has all names of the answer, with the same scopes round them.
pub fn fixed_scripts_lose_no_name()
    ensures { FixedScriptsLoseNoName }
{}
