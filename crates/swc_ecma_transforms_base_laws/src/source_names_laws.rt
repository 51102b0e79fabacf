//! A program that is resolved, made hygienic and written down is the same program but for the names that it binds.
//!
//! `specs/Laws.antt` states the laws. Each is the contract of a function that does nothing but call the laws that it rests on; a
//! caller calls it, and then knows the law.

ghost use Rattle.swc_ecma_transforms_base_laws.specs.SourceNames.{HygieneKeepsSources, NormalFormsCatchNone, NormalNamesMeanTheirIds, RenamersKeepSources};

use swc_base_fixer_laws::targets_stand_bare;
use swc_base_rename_scoped_laws::{chained_is_flat, names_are_apart};
use swc_base_renaming_laws::swc_tree_sites_kept::{
    plain_scripts_are_left, writable_modules_are_tame, writable_normal_form_is_left,
};
use swc_base_renaming_laws::{
    hygiene_spares_global_values, renamers_keep_meanings, renaming_gives_normal_form_new_texts,
};
use swc_tree_grammar_texts::texts_are_as_writable;
use swc_tree_sites_laws::{ids_are_left, stripped_takes_the_same};
use swc_tree_sites_written::written_out_is_left;

/// In the normal form of a source that can be written down no `var` declares a catch parameter's name again.
pub fn normal_forms_catch_none()
    ensures { NormalFormsCatchNone }
{
    texts_are_as_writable();
    writable_normal_form_is_left();
    plain_scripts_are_left();
    targets_stand_bare();
    writable_modules_are_tame();
    written_out_is_left();
    stripped_takes_the_same();
}

/// Two names of a source's normal form mean one thing exactly if the resolver found one id for them.
pub fn normal_names_mean_their_ids()
    ensures { NormalNamesMeanTheirIds }
{
    texts_are_as_writable();
    writable_normal_form_is_left();
    plain_scripts_are_left();
    targets_stand_bare();
    writable_modules_are_tame();
    written_out_is_left();
    stripped_takes_the_same();
}

/// Each way to write down what a renamer whose preserved ids keep apart made of a well-scoped program is one, but for names, with each
/// source that the program comes from.
pub fn renamers_keep_sources()
    ensures { RenamersKeepSources }
{
    names_are_apart();
    chained_is_flat();
    renaming_gives_normal_form_new_texts();
    ids_are_left();
    renamers_keep_meanings();
    texts_are_as_writable();
    writable_normal_form_is_left();
    plain_scripts_are_left();
    targets_stand_bare();
    writable_modules_are_tame();
    written_out_is_left();
    stripped_takes_the_same();
}

/// So of hygiene.
pub fn hygiene_keeps_sources()
    ensures { HygieneKeepsSources }
{
    renamers_keep_sources();
    hygiene_spares_global_values();
}
