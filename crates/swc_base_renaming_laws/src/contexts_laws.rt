//! Substitution does not look into contexts, but for whether ids are one.
//!
//! `specs/Laws.antt` states the laws. Each is the contract of a function that does nothing; a caller calls it, and then knows
//! the law.

ghost use Rattle.swc_base_renaming_laws.specs.Contexts.{LabelsCarryTexts, LabelsKeepTexts, SubstitutionNeedsNoContexts};

/// With labels for contexts, and the same new texts, a tree becomes the same but for contexts.
pub fn substitution_needs_no_contexts()
    ensures { SubstitutionNeedsNoContexts }
{}

/// An id's own label tells what becomes of it.
pub fn labels_carry_texts()
    ensures { LabelsCarryTexts }
{}

/// Labels for contexts keep the texts of a tree.
pub fn labels_keep_texts()
    ensures { LabelsKeepTexts }
{}
