//! What the laws of the passes say of what a command makes.
//!
//! Each is the contract of a function that does nothing but call the laws that it rests on.
ghost use Rattle.mucwathi_laws.specs.Promises.{PromisesAreKept, TargetsAreSpared, TextsAreKept, TokensAreKept};

use swc_base_fixer::answers_keep_promises;
use swc_base_fixer_laws::{normal_form_stays, targets_stand_bare};
use swc_base_mangle_laws::swc_ecma_transforms_base_laws::{
    chaining_keeps_forms, chaining_keeps_sources, resolved_sources_have_their_form,
};
use swc_base_mangle_laws::{mangled_sources_are_kept, mangled_sources_keep_forms};
use swc_base_renaming_laws::hygiene_stays_fitting;
use text_kept_laws::{
    bound_names_alone_differ, chains_keep_tokens, fixer_keeps_texts, hygiene_keeps_texts,
    short_names_keep_texts, unparen_keeps_texts,
};

/// What a command makes of a program has all that is promised of it.
pub fn promises_are_kept()
    ensures { PromisesAreKept }
{
    chaining_keeps_forms();
    chaining_keeps_sources();
    mangled_sources_keep_forms();
    mangled_sources_are_kept();
    answers_keep_promises();
    resolved_sources_have_their_form();
    hygiene_stays_fitting();
    normal_form_stays();
    bound_names_alone_differ();
}

/// Where it is refused, targets are spared.
pub fn targets_are_spared()
    ensures { TargetsAreSpared }
{
    chaining_keeps_forms();
    mangled_sources_keep_forms();
}

/// What it makes can be written as text, where the program can.
pub fn texts_are_kept()
    ensures { TextsAreKept }
{
    hygiene_keeps_texts();
    short_names_keep_texts();
    fixer_keeps_texts();
    unparen_keeps_texts();
}

/// What it makes has the tokens of a source but for what `KeepsTokens` says.
pub fn tokens_are_kept()
    ensures { TokensAreKept }
{
    chaining_keeps_forms();
    mangled_sources_keep_forms();
    resolved_sources_have_their_form();
    hygiene_stays_fitting();
    short_names_keep_texts();
    targets_stand_bare();
    chains_keep_tokens();
}
