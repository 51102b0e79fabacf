//! What the laws of the passes say of what a command makes.
//!
//! Each is the contract of a function that does nothing but call the laws that it rests on.
ghost use Rattle.jsbase_engine.specs.Laws.{PromisesAreKept, TargetsAreSpared};

use swc_base_fixer::answers_keep_promises;
use swc_base_mangle_laws::swc_ecma_transforms_base_laws::{
    chaining_keeps_forms, chaining_keeps_sources,
};
use swc_base_mangle_laws::{mangled_sources_are_kept, mangled_sources_keep_forms};
use swc_ecma_transforms_base_laws::a_chain_changes_nothing;
use swc_tree_spaces_laws::{resolved_alike_without_types, types_are_told};

// What a command makes of an input has all that is promised of it.
pub fn promises_are_kept()
    ensures { PromisesAreKept }
{
    types_are_told();
    resolved_alike_without_types();
    chaining_keeps_forms();
    chaining_keeps_sources();
    a_chain_changes_nothing();
    mangled_sources_keep_forms();
    mangled_sources_are_kept();
    answers_keep_promises();
}

// Where it is refused, targets are spared.
pub fn targets_are_spared()
    ensures { TargetsAreSpared }
{
    types_are_told();
    resolved_alike_without_types();
    chaining_keeps_forms();
    mangled_sources_keep_forms();
}
