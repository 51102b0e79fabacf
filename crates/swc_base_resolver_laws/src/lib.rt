//! What resolving gives, said apart from how it is done.
//!
//! `specs/Laws.antt` states the laws. Each is the contract of a function that does nothing, so that it is proved.
#![tactic(auto)]

ghost use Rattle.swc_base_resolver_laws.specs.Laws.{
  CleanProgramsBecomeWellScoped,
  ListsAreItemsWithoutNamespaces,
  ResolvedNamesMeanTheirIds,
  ResolvedScriptsArePlain,
};

/// A program without contexts and without early errors of names, each export list of which is an item of it, is well-scoped once
/// it is resolved, whichever marks its scopes get: a module, or a script of which what is asked of scripts is asked.
pub fn clean_programs_become_well_scoped()
    ensures { CleanProgramsBecomeWellScoped }
{}

/// Two names of such a program belong to one scope and have one text, or are free and have one text, exactly if they get one
/// id (ECMA-262, 9.4.2).
pub fn resolved_names_mean_their_ids()
    ensures { ResolvedNamesMeanTheirIds }
{}

/// What is asked of a script beyond what is asked of a module stays where it is resolved.
pub fn resolved_scripts_are_plain()
    ensures { ResolvedScriptsArePlain }
{}

/// Each export list of a program without namespaces is one of its items.
pub fn lists_are_items_without_namespaces()
    ensures { ListsAreItemsWithoutNamespaces }
{}
