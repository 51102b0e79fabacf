//! What a lawful renamer and then the fixer answer has no early error of names.
//!
//! `specs/Laws.antt` states the law. It is the contract of a function that does nothing but call the laws that it rests on; a
//! caller calls it, and then knows the law.

ghost use Rattle.swc_base_renaming_laws.specs.Errors.{AnswerDeclaresByTheRules, AnswerHasNoEarlyErrorOfNames, RenamedAnswerDeclaresByTheRules, RenamedAnswerHasNoEarlyErrorOfNames};

use crate::hygiene_laws::{
    hygiene_is_lawful, renaming_stays_fitting, renaming_stays_settled, renaming_stays_writable,
};
use crate::new_texts_laws::renaming_gives_normal_form_new_texts;
use swc_base_rename_scoped_laws::{chained_is_flat, names_are_apart};
use swc_tree_sites_kept::{fixed_scripts_lose_no_name, plain_scripts_are_left};

/// What a lawful renamer, whose preserved ids keep apart, and then the fixer answer to a well-scoped program that can be written down,
/// where nothing reads names and classes don't keep theirs, declares no name against the rules, and neither `eval` nor `arguments`.
pub fn renamed_answer_declares_by_the_rules()
    ensures { RenamedAnswerDeclaresByTheRules }
{
    names_are_apart();
    chained_is_flat();
    renaming_gives_normal_form_new_texts();
    renaming_stays_writable();
    renaming_stays_fitting();
    renaming_stays_settled();
    plain_scripts_are_left();
    fixed_scripts_lose_no_name();
}

/// The answer has no early error of names: what its export lists name is declared, too.
pub fn renamed_answer_has_no_early_error_of_names()
    ensures { RenamedAnswerHasNoEarlyErrorOfNames }
{
    names_are_apart();
    chained_is_flat();
    renaming_gives_normal_form_new_texts();
    renaming_stays_writable();
    renaming_stays_fitting();
    renaming_stays_settled();
    plain_scripts_are_left();
    fixed_scripts_lose_no_name();
}

/// So of hygiene.
pub fn answer_declares_by_the_rules()
    ensures { AnswerDeclaresByTheRules }
{
    renamed_answer_declares_by_the_rules();
    hygiene_is_lawful();
}

/// So of hygiene.
pub fn answer_has_no_early_error_of_names()
    ensures { AnswerHasNoEarlyErrorOfNames }
{
    renamed_answer_has_no_early_error_of_names();
    hygiene_is_lawful();
}
