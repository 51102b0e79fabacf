//! Laws of mangled programs, on definitions alone: what is promised of a source that is resolved, mangled and fixed.
//!
//! `specs/Laws.antt` states them; each is the contract of a function that does nothing but call the laws that it rests on.
#![tactic(auto)]

ghost use Rattle.swc_base_mangle_laws.specs.Laws.{MangledSourcesAreKept, MangledSourcesKeepForms};

use swc_ecma_transforms_base_laws::{
    lawful_renamers_keep_forms_of_sources, lawful_renamers_keep_sources,
    renamers_that_preserve_top_names_suit, resolved_sources_are_ready,
    resolved_sources_have_their_form,
};

/// The form of a source that is resolved, mangled and fixed stays, strays or not; no target of it is to blame.
pub fn mangled_sources_keep_forms()
    ensures { MangledSourcesKeepForms }
{
    resolved_sources_have_their_form();
    lawful_renamers_keep_forms_of_sources();
}

/// A source, a module or a plain script, is the same program then, but for the names that it binds.
pub fn mangled_sources_are_kept()
    ensures { MangledSourcesAreKept }
{
    resolved_sources_are_ready();
    lawful_renamers_keep_sources();
    renamers_that_preserve_top_names_suit();
}

// Libraries below that crates above name through this one.
pub use swc_ecma_transforms_base_laws;
