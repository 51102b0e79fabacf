//! What hygiene and then the fixer answer, the three passes in a chain answer again.
//!
//! The laws are stated in lower crates. Each is the contract of a function that does nothing but call those of the laws that it rests on; a caller
//! calls it, and then knows the law.

ghost use Rattle.swc_base_renaming_laws.specs.Carried.{LabelsMeetAsTheOld};
ghost use Rattle.swc_ecma_transforms_base_laws.specs.Settled.{AnswersAreApart, ChainChangesNothing, ChainChangesSpans};

use crate::settling_laws::{
    answers_are_clean_programs, chain_changes_nothing, chain_changes_spans,
};
use swc_base_fixer_laws::targets_stand_bare;
use swc_base_fixer_texts::fixing_needs_no_contexts;
use swc_base_renaming_laws::{
    answer_has_no_early_error_of_names, blocks_add_no_pairs, due_pairs_keep_meetings,
    hygiene_stays_fitting, hygiene_stays_settled, hygiene_stays_writable,
    labelled_answers_are_apart, programs_take_all, stripping_adds_no_pairs,
    substitution_keeps_meetings, substitution_needs_no_contexts,
};
use swc_tree_grammar_texts::texts_are_as_writable;

/// Ids that meet in what the fixer makes of a program with labels are the new ones of ids that met.
pub fn labels_meet_as_the_old()
    ensures { LabelsMeetAsTheOld }
{
    due_pairs_keep_meetings();
    blocks_add_no_pairs();
    stripping_adds_no_pairs();
    programs_take_all();
    substitution_keeps_meetings();
    targets_stand_bare();
}

/// Texts of the resolved answer are apart where its ids meet.
pub fn answers_are_apart()
    ensures { AnswersAreApart }
{
    hygiene_stays_fitting();
    hygiene_stays_writable();
    hygiene_stays_settled();
    answer_has_no_early_error_of_names();
    answers_are_clean_programs();
    fixing_needs_no_contexts();
    substitution_needs_no_contexts();
    texts_are_as_writable();
    labels_meet_as_the_old();
    labelled_answers_are_apart();
}

/// What hygiene and then the fixer answer, the three passes in a chain answer again, but for spans.
pub fn a_chain_changes_spans()
    ensures { ChainChangesSpans }
{
    chain_changes_spans();
    answers_are_apart();
}

/// It answers the very same, spans too, as the fixer puts each pair where the answer has it.
pub fn a_chain_changes_nothing()
    ensures { ChainChangesNothing }
{
    chain_changes_nothing();
    answers_are_apart();
}
