//! A renamer whose preserved ids are apart keeps what is one name and what is two: where the names that it gave are told apart
//! again, they are told apart as they were. Hygiene is one.
//!
//! `specs/Laws.antt` states the laws. Each is the contract of a function that does nothing but call the laws that it rests on; a
//! caller calls it, and then knows the law.

ghost use Rattle.swc_base_renaming_laws.specs.Ids.{HygieneKeepsIds, HygieneKeepsMeanings, RenamersKeepIds, RenamersKeepMeanings};

use crate::hygiene_laws::hygiene_spares_global_values;
use crate::new_texts_laws::renaming_gives_normal_form_new_texts;
use swc_base_fixer_laws::targets_stand_bare;
use swc_base_rename_scoped_laws::{chained_is_flat, names_are_apart};
use swc_tree_grammar_texts::texts_are_as_writable;
use swc_tree_sites_kept::swc_tree_sites_written::written_out_is_left;
use swc_tree_sites_kept::{
    plain_scripts_are_left, writable_modules_are_tame, writable_normal_form_is_left,
};
use swc_tree_sites_laws::{
    ids_are_left, left_keeps_ids, left_mean_their_ids, stripped_takes_the_same,
};

/// Each way to write down what a renamer whose preserved ids are apart made of a well-scoped program gets, from any resolver, one
/// id for two names of it exactly if the program had one id for them; in scripts, where no name gets the text `undefined`, `NaN`
/// or `Infinity` that had another.
pub fn renamers_keep_ids()
    ensures { RenamersKeepIds }
{
    names_are_apart();
    chained_is_flat();
    renaming_gives_normal_form_new_texts();
    targets_stand_bare();
    writable_modules_are_tame();
    written_out_is_left();
    writable_normal_form_is_left();
    plain_scripts_are_left();
    stripped_takes_the_same();
    ids_are_left();
    texts_are_as_writable();
    left_keeps_ids();
}

/// In each way to write down what a renamer whose preserved ids are apart made of a well-scoped program, two names of it have one
/// text and one scope, or one text and no scope, exactly if the program had one id for them.
pub fn renamers_keep_meanings()
    ensures { RenamersKeepMeanings }
{
    names_are_apart();
    chained_is_flat();
    renaming_gives_normal_form_new_texts();
    writable_normal_form_is_left();
    plain_scripts_are_left();
    ids_are_left();
    left_mean_their_ids();
}

/// Each way to write down what hygiene made of a well-scoped program gets, from any resolver, one id for two names of it
/// exactly if the program had one id for them.
pub fn hygiene_keeps_ids()
    ensures { HygieneKeepsIds }
{
    renamers_keep_ids();
    hygiene_spares_global_values();
}

/// In each way to write down what hygiene made of a well-scoped program, two names of it have one text and one scope, or one text
/// and no scope, exactly if the program had one id for them.
pub fn hygiene_keeps_meanings()
    ensures { HygieneKeepsMeanings }
{
    renamers_keep_meanings();
}
