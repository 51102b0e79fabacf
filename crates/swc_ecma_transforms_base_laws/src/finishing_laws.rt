//! Laws of passes that run one after another, on definitions alone: a lawful renamer, as hygiene is, and then the fixer.
//!
//! `specs/Renamers.antt`, `specs/Finished.antt` and `specs/Sources.antt` state the laws, and `specs/Headline.antt` what is promised by all of them. Each is the contract of a function that does nothing but call those of the laws
//! that it rests on; a caller of the two passes calls it, and then knows the law.

ghost use Rattle.swc_ecma_transforms_base_laws.specs.Finished.{FinishingKeepsIds, FinishingKeepsMeanings, FinishingKeepsPrograms, FinishingKeepsSources, FinishingKeepsSpans, FinishingMeetsNoTarget};
ghost use Rattle.swc_ecma_transforms_base_laws.specs.Headline.{ChainingKeepsForms, ChainingKeepsSources, FinishingKeepsForms, FinishingKeepsPromises};
ghost use Rattle.swc_ecma_transforms_base_laws.specs.Renamers.{FinishingRenamedKeepsIds, FinishingRenamedKeepsMeanings, FinishingRenamedKeepsPrograms, FinishingRenamedKeepsSources, FinishingRenamedKeepsSpans, FinishingRenamedMeetsNoTarget};
ghost use Rattle.swc_ecma_transforms_base_laws.specs.Renamers.{LawfulRenamersKeepForms, LawfulRenamersKeepFormsOfSources, LawfulRenamersKeepPromises, LawfulRenamersKeepSources, RenamersThatPreserveNoneKeepPromises, RenamersThatPreserveNoneSuit, RenamersThatPreserveTopNamesSuit};
ghost use Rattle.swc_ecma_transforms_base_laws.specs.Sources.{ResolvedSourcesAreReady, ResolvedSourcesHaveTheirForm};

use crate::source_names_laws::renamers_keep_sources;
use swc_base_fixer_laws::{fixed_fits, fixed_fits_table, normal_form_stays, targets_stand_bare};
use swc_base_fixer_sites::fixer_stays_clean;
use swc_base_renaming_laws::swc_tree_sites_kept::fixed_scripts_lose_no_name;
use swc_base_renaming_laws::{
    hygiene_is_lawful, hygiene_spares_global_values, readers_need_no_contexts,
    renamed_answer_has_no_early_error_of_names, renamers_keep_ids, renamers_keep_meanings,
    renaming_keeps_normal_form, renaming_keeps_spans, renaming_stays_fitting,
    renaming_stays_settled, renaming_stays_writable, sameness_needs_no_contexts,
};
use swc_base_resolver_laws::{
    clean_programs_become_well_scoped, resolved_names_mean_their_ids, resolved_scripts_are_plain,
};
use swc_tree_grammar_texts::texts_are_as_writable;

/// What a lawful renamer, whose preserved ids are apart where the module alone is round them, and then the fixer make of a program that can
/// be written down, where nothing reads names and classes don't keep theirs, can be written down, is derived by the grammar, and has the
/// program's normal form but for the names that it binds.
pub fn finishing_renamed_keeps_programs()
    ensures { FinishingRenamedKeepsPrograms }
{
    renaming_stays_fitting();
    renaming_stays_writable();
    renaming_keeps_normal_form();
    fixed_fits();
    normal_form_stays();
}

/// What is in the normal form of such a program stands where it stood, identifiers too.
pub fn finishing_renamed_keeps_spans()
    ensures { FinishingRenamedKeepsSpans }
{
    renaming_stays_fitting();
    renaming_keeps_spans();
    normal_form_stays();
}

/// The fixer does not refuse what a lawful renamer made of such a program for an assignment target.
pub fn finishing_renamed_meets_no_target()
    ensures { FinishingRenamedMeetsNoTarget }
{
    renaming_stays_fitting();
    renaming_stays_writable();
    targets_stand_bare();
}

/// Resolved again, what a lawful renamer, whose preserved ids keep apart, and then the fixer made of such a well-scoped program gives two
/// kept names one id exactly if the program did.
pub fn finishing_renamed_keeps_ids()
    ensures { FinishingRenamedKeepsIds }
{
    renamers_keep_ids();
    renaming_stays_fitting();
    renaming_stays_writable();
    renaming_stays_settled();
    targets_stand_bare();
    fixed_fits();
    fixed_fits_table();
    fixer_stays_clean();
    fixed_scripts_lose_no_name();
    normal_form_stays();
}

/// In what it made of such a well-scoped program two kept names have one text and one scope, or one text and no scope, exactly if the
/// program had one id for them.
pub fn finishing_renamed_keeps_meanings()
    ensures { FinishingRenamedKeepsMeanings }
{
    renamers_keep_meanings();
    renaming_stays_fitting();
    renaming_stays_writable();
    renaming_stays_settled();
    targets_stand_bare();
    fixed_fits();
    fixed_fits_table();
    fixer_stays_clean();
    fixed_scripts_lose_no_name();
    normal_form_stays();
}

/// What it made of such a well-scoped program is the same program, but for names, as each source that it comes from.
pub fn finishing_renamed_keeps_sources()
    ensures { FinishingRenamedKeepsSources }
{
    renamers_keep_sources();
    renaming_stays_fitting();
    renaming_stays_writable();
    renaming_stays_settled();
    targets_stand_bare();
    fixed_fits();
    fixed_fits_table();
    fixer_stays_clean();
    fixed_scripts_lose_no_name();
    normal_form_stays();
}

/// The form of a program that a lawful renamer and then the fixer finish stays.
pub fn lawful_renamers_keep_forms()
    ensures { LawfulRenamersKeepForms }
{
    finishing_renamed_keeps_programs();
    finishing_renamed_keeps_spans();
}

/// What is promised of a program, well-scoped or not, that a lawful renamer which suits it and then the fixer finish.
pub fn lawful_renamers_keep_promises()
    ensures { LawfulRenamersKeepPromises }
{
    finishing_renamed_keeps_sources();
    lawful_renamers_keep_forms();
    finishing_renamed_keeps_ids();
    finishing_renamed_keeps_meanings();
    renamed_answer_has_no_early_error_of_names();
}

/// A renamer that preserves no id suits each module, and each script if it gives no text of a global value.
pub fn renamers_that_preserve_none_suit()
    ensures { RenamersThatPreserveNoneSuit }
{}

/// So the promises are kept by each lawful renamer that preserves no id.
pub fn renamers_that_preserve_none_keep_promises()
    ensures { RenamersThatPreserveNoneKeepPromises }
{
    lawful_renamers_keep_promises();
}

/// Hygiene keeps such programs.
pub fn finishing_keeps_programs()
    ensures { FinishingKeepsPrograms }
{
    finishing_renamed_keeps_programs();
    hygiene_is_lawful();
    hygiene_spares_global_values();
}

/// Hygiene keeps their spans.
pub fn finishing_keeps_spans()
    ensures { FinishingKeepsSpans }
{
    finishing_renamed_keeps_spans();
    hygiene_spares_global_values();
}

/// The fixer does not refuse what hygiene made of such a program for an assignment target.
pub fn finishing_meets_no_target()
    ensures { FinishingMeetsNoTarget }
{
    finishing_renamed_meets_no_target();
    hygiene_is_lawful();
}

/// Hygiene keeps the ids of well-scoped ones.
pub fn finishing_keeps_ids()
    ensures { FinishingKeepsIds }
{
    finishing_renamed_keeps_ids();
    hygiene_is_lawful();
    hygiene_spares_global_values();
}

/// Hygiene keeps what their names mean.
pub fn finishing_keeps_meanings()
    ensures { FinishingKeepsMeanings }
{
    finishing_renamed_keeps_meanings();
    hygiene_is_lawful();
}

/// Hygiene keeps them the same, but for names, as each source that they come from.
pub fn finishing_keeps_sources()
    ensures { FinishingKeepsSources }
{
    finishing_renamed_keeps_sources();
    hygiene_is_lawful();
    hygiene_spares_global_values();
}

/// A program without contexts that can be written down is, once it is resolved, such that hygiene and the fixer may finish it; and
/// what is the same as it then, but for bound names, is so to the source.
pub fn resolved_sources_have_their_form()
    ensures { ResolvedSourcesHaveTheirForm }
{
    texts_are_as_writable();
    sameness_needs_no_contexts();
    readers_need_no_contexts();
}

/// Such a program that has no early error of names is, once it is resolved, well-scoped, and two names of it got one id exactly if they
/// have one text and one scope, or one text and no scope.
pub fn resolved_sources_are_ready()
    ensures { ResolvedSourcesAreReady }
{
    resolved_sources_have_their_form();
    clean_programs_become_well_scoped();
    resolved_names_mean_their_ids();
    resolved_scripts_are_plain();
}

/// The form of a program that hygiene and then the fixer finish stays.
pub fn finishing_keeps_forms()
    ensures { FinishingKeepsForms }
{
    lawful_renamers_keep_forms();
    hygiene_is_lawful();
    hygiene_spares_global_values();
}

/// What is promised of a program, well-scoped or not, that hygiene and then the fixer finish.
pub fn finishing_keeps_promises()
    ensures { FinishingKeepsPromises }
{
    lawful_renamers_keep_promises();
    hygiene_is_lawful();
    hygiene_spares_global_values();
}

/// The form of a source that is resolved, renamed by a lawful renamer, and then fixed stays; no target of it is to blame.
pub fn lawful_renamers_keep_forms_of_sources()
    ensures { LawfulRenamersKeepFormsOfSources }
{
    resolved_sources_have_their_form();
    lawful_renamers_keep_forms();
    finishing_renamed_meets_no_target();
}

/// A renamer that preserves ids with the mark of the program alone suits what a source is resolved to: what the program declares may keep
/// its names.
pub fn renamers_that_preserve_top_names_suit()
    ensures { RenamersThatPreserveTopNamesSuit }
{
    resolved_sources_are_ready();
}

/// What is promised of a source that is resolved, renamed by a lawful renamer which suits it then, and fixed.
pub fn lawful_renamers_keep_sources()
    ensures { LawfulRenamersKeepSources }
{
    resolved_sources_are_ready();
    lawful_renamers_keep_promises();
    lawful_renamers_keep_forms_of_sources();
}

/// The form of a source that is resolved, and then finished, stays; no target of it is to blame.
pub fn chaining_keeps_forms()
    ensures { ChainingKeepsForms }
{
    lawful_renamers_keep_forms_of_sources();
    hygiene_is_lawful();
    hygiene_spares_global_values();
}

/// What is promised of a source that is resolved, and then finished.
pub fn chaining_keeps_sources()
    ensures { ChainingKeepsSources }
{
    lawful_renamers_keep_sources();
    hygiene_is_lawful();
    hygiene_spares_global_values();
}
