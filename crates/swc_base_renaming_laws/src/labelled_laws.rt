//! What the fixer makes of a program with new names, where each name carries a label: the names of the program, by their labels.
//!
//! `specs/Laws.antt` states the laws. Each is the contract of a function that does nothing but call the laws that it rests on; a
//! caller calls it, and then knows the law.

ghost use Rattle.swc_base_renaming_laws.specs.Labelled.{FixedNamesAreLeft, LabelsAreIds, LabelsAreMeant, LabelsTellTexts, LooseNamesWereLoose};

use swc_base_fixer_laws::{fixed_fits, fixed_fits_table, normal_form_stays, targets_stand_bare};
use swc_base_fixer_sites::stripping_answers_loses_none;
use swc_base_rename_laws::{normal_form_has_new_names, normal_form_keeps_spans};
use swc_base_rename_scoped_laws::names_are_apart;
use swc_base_resolver_laws::resolved_names_mean_their_ids;
use swc_tree_grammar_texts::texts_are_as_writable;
use swc_tree_sites_kept::{
    fixed_scripts_lose_no_name, plain_scripts_are_left, writable_modules_are_tame,
    writable_normal_form_is_left,
};
use swc_tree_sites_laws::left_mean_their_ids;
use swc_tree_sites_written::written_out_loses_none;

/// What the fixer makes of a program with new names is left of the program, where names are told apart by contexts that new names keep.
pub fn fixed_names_are_left()
    ensures { FixedNamesAreLeft }
{
    stripping_answers_loses_none();
    written_out_loses_none();
    writable_modules_are_tame();
    normal_form_stays();
    fixed_fits();
    fixed_fits_table();
    targets_stand_bare();
    fixed_scripts_lose_no_name();
    plain_scripts_are_left();
    writable_normal_form_is_left();
    normal_form_has_new_names();
    normal_form_keeps_spans();
}

/// Each name of what the fixer makes of a program with labels has the text that hygiene gives the id of its label.
pub fn labels_tell_texts()
    ensures { LabelsTellTexts }
{
    stripping_answers_loses_none();
    written_out_loses_none();
    writable_modules_are_tame();
    normal_form_stays();
    fixed_fits();
    fixed_fits_table();
    targets_stand_bare();
    fixed_scripts_lose_no_name();
    plain_scripts_are_left();
    writable_normal_form_is_left();
    normal_form_has_new_names();
    texts_are_as_writable();
}

/// Without the labels, two names of it have one text and one scope, or one text and no scope, exactly if they had one label.
pub fn labels_are_meant()
    ensures { LabelsAreMeant }
{
    fixed_names_are_left();
    fixed_fits_table();
    targets_stand_bare();
    fixed_scripts_lose_no_name();
    texts_are_as_writable();
    names_are_apart();
    labels_tell_texts();
    left_mean_their_ids();
}

/// Resolved without its labels, two names of it have one id exactly if they had one label.
pub fn labels_are_ids()
    ensures { LabelsAreIds }
{
    fixed_names_are_left();
    fixed_fits_table();
    targets_stand_bare();
    fixed_scripts_lose_no_name();
    texts_are_as_writable();
    labels_are_meant();
    resolved_names_mean_their_ids();
}

/// An id that is loose there has a label whose id was loose in the program.
pub fn loose_names_were_loose()
    ensures { LooseNamesWereLoose }
{
    fixed_names_are_left();
    fixed_fits_table();
    targets_stand_bare();
    fixed_scripts_lose_no_name();
    texts_are_as_writable();
    labels_are_ids();
}
