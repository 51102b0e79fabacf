//! What hygiene and then the fixer answer is a program without contexts, in which nothing reads names, and a chain answers it again, as far as its texts are apart.
//!
//! `specs/Settled.antt` states the laws. The last two are implications: that the texts of a resolved answer are apart where its ids meet is
//! their premise, which `swc_ecma_transforms_base_apart_laws` gives. Each law is the contract of a function that does nothing but call those of the laws that it rests on.

ghost use Rattle.swc_ecma_transforms_base_laws.specs.Settled.{AnswersAreCleanPrograms, AnswersReadNoNames, ChainChangesNothingGiven, ChainChangesSpansGiven, HygieneLeavesApart};

use swc_base_fixer_laws::{
    second_run_changes_nothing, second_run_changes_spans, targets_stand_bare,
};
use swc_base_fixer_texts::fixing_needs_no_contexts;
use swc_base_rename_scoped_laws::{chained_is_flat, names_are_apart};
use swc_base_renaming_laws::swc_tree_sites_kept::{
    fixed_scripts_lose_no_name, plain_scripts_are_left,
};
use swc_base_renaming_laws::{
    answer_has_no_early_error_of_names, blocks_add_no_reader, contexts_add_no_reader,
    due_pairs_add_no_reader, hygiene_is_lawful, hygiene_keeps_apart, hygiene_spares_global_values,
    hygiene_stays_fitting, hygiene_stays_writable, new_names_add_no_reader,
    readers_need_no_contexts, renaming_gives_normal_form_new_texts, renaming_stays_fitting,
    renaming_stays_settled, renaming_stays_writable, stripping_adds_no_reader,
};
use swc_base_resolver_laws::clean_programs_become_well_scoped;

/// Where texts are apart where ids meet, hygiene leaves a tree as it is, but without contexts.
pub fn hygiene_leaves_apart()
    ensures { HygieneLeavesApart }
{
    hygiene_keeps_apart();
}

/// Where nothing reads names in a program, nothing does in what hygiene and then the fixer answer.
pub fn answers_read_no_names()
    ensures { AnswersReadNoNames }
{
    hygiene_stays_fitting();
    hygiene_stays_writable();
    targets_stand_bare();
    new_names_add_no_reader();
    contexts_add_no_reader();
    stripping_adds_no_reader();
    blocks_add_no_reader();
    due_pairs_add_no_reader();
}

/// What hygiene and then the fixer answer is a program without contexts, of a plain script a plain script.
pub fn answers_are_clean_programs()
    ensures { AnswersAreCleanPrograms }
{
    names_are_apart();
    chained_is_flat();
    renaming_gives_normal_form_new_texts();
    renaming_stays_writable();
    renaming_stays_fitting();
    renaming_stays_settled();
    hygiene_is_lawful();
    hygiene_spares_global_values();
    plain_scripts_are_left();
    fixed_scripts_lose_no_name();
    targets_stand_bare();
    fixing_needs_no_contexts();
}

/// A chain changes spans alone of what hygiene and then the fixer answered, if the texts of the resolved answer are apart where its
/// ids meet.
pub fn chain_changes_spans()
    ensures { ChainChangesSpansGiven }
{
    hygiene_stays_fitting();
    answers_read_no_names();
    answers_are_clean_programs();
    hygiene_leaves_apart();
    clean_programs_become_well_scoped();
    answer_has_no_early_error_of_names();
    readers_need_no_contexts();
    second_run_changes_spans();
}

/// It changes nothing of it then, spans neither, as the fixer puts each pair where the answer has it.
pub fn chain_changes_nothing()
    ensures { ChainChangesNothingGiven }
{
    hygiene_stays_fitting();
    hygiene_stays_writable();
    answers_read_no_names();
    answers_are_clean_programs();
    hygiene_leaves_apart();
    clean_programs_become_well_scoped();
    answer_has_no_early_error_of_names();
    readers_need_no_contexts();
    second_run_changes_nothing();
}
