//! Laws of the fixer: what its answer keeps, and that the grammar derives it.
//!
//! `specs/Sets` says when a tree is another with some more pairs of parentheses, `specs/Alike` when two are the same
//! but for the kind of the name `async`, `specs/Once` when no pair stands right in another, and `specs/Named` what
//! becomes of that name; `specs/Laws` states the laws. Each is the contract of a function that does nothing, so that it
//! is proved.
#![tactic(auto)]

ghost use Rattle.swc_base_fixer_laws.specs.Laws.{AnswerAgain, AnswerFits, AnswerFitsTable, BlocksKeepWritable, DuePairsArePairs, DuePairsKeepWritable, FixedFits, FixedFitsTable, FixerKeepsNormalForm, FixerPairsOnce, FixerStaysThere, NoPairInPair, NormalFormStays, PlacesChangeSpans, SecondRunChangesNothing, SecondRunChangesSpans, SecondRunKeepsSpans, StrippingKeepsWritable, StrippingUndoesDuePairs, StrippingUndoesFixer, TargetsStandBare, TargetsStayBare};

/// The due pairs are pairs round expressions, and nothing else changes.
pub fn due_pairs_are_pairs()
    ensures { DuePairsArePairs }
{}

/// The answer fits the table where the tree does.
pub fn answer_fits_table()
    ensures { AnswerFitsTable }
{}

/// Stripping takes the due pairs off again.
pub fn stripping_undoes_due_pairs()
    ensures { StrippingUndoesDuePairs }
{}

/// What can be written down still can with its due pairs.
pub fn due_pairs_keep_writable()
    ensures { DuePairsKeepWritable }
{}

/// The grammar derives the answer to what can be written down.
pub fn answer_fits()
    ensures { AnswerFits }
{}

/// What can be written down still can with its blocks.
pub fn blocks_keep_writable()
    ensures { BlocksKeepWritable }
{}

/// In what can be written down each parenthesised assignment target can stand bare.
pub fn targets_stand_bare()
    ensures { TargetsStandBare }
{}

/// What can be written down still can once it is stripped.
pub fn stripping_keeps_writable()
    ensures { StrippingKeepsWritable }
{}

/// What can be written down still can with its due pairs in place of those that it had, and the grammar derives it.
pub fn fixed_fits()
    ensures { FixedFits }
{}

/// The answer fits where the tree does, where each parenthesised target can stand bare.
pub fn fixed_fits_table()
    ensures { FixedFitsTable }
{}

/// Stripping leaves of the answer what it leaves of the tree, with its blocks.
pub fn stripping_undoes_fixer()
    ensures { StrippingUndoesFixer }
{}

/// The answer has the normal form of what it answers.
pub fn normal_form_stays()
    ensures { NormalFormStays }
{}

/// No pair of the answer stands right in another.
pub fn no_pair_in_pair()
    ensures { NoPairInPair }
{}

/// An answer's own answer is that of what it answers.
pub fn answer_again()
    ensures { AnswerAgain }
{}

/// Where pairs are put changes spans alone.
pub fn places_change_spans()
    ensures { PlacesChangeSpans }
{}

/// A second run changes nothing but spans.
pub fn second_run_changes_spans()
    ensures { SecondRunChangesSpans }
{}

/// A second run answers the same tree with its spans, where no assignment's target of it stands in a pair.
pub fn second_run_keeps_spans()
    ensures { SecondRunKeepsSpans }
{}

/// In the answer to what can be written down no assignment's target stands in a pair.
pub fn targets_stay_bare()
    ensures { TargetsStayBare }
{}

/// A second run answers the answer to what can be written down with that very answer.
pub fn second_run_changes_nothing()
    ensures { SecondRunChangesNothing }
{}

/// What the fixer answers has the normal form of what it was given, but for spans.
pub fn fixer_keeps_normal_form()
    ensures { FixerKeepsNormalForm }
{}

/// In what the fixer answers no pair stands right in another.
pub fn fixer_pairs_once()
    ensures { FixerPairsOnce }
{}

/// The fixer answers its own answer with the same, but for spans.
pub fn fixer_stays_there()
    ensures { FixerStaysThere }
{}
