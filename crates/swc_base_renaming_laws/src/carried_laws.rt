//! Where what the fixer makes of a program with labels is resolved, its own texts are apart where ids meet.
//!
//! `specs/Laws.antt` states the law. It is an implication: that ids with labels meet as the old ones did is its premise. It is the contract of a
//! function that does nothing but call those of the laws that it rests on.

ghost use Rattle.swc_base_renaming_laws.specs.Carried.{LabelledAnswersAreApartGiven};

use crate::labelled_laws::{labels_are_ids, labels_tell_texts, loose_names_were_loose};
use crate::settled_laws::{
    hygiene_tells_met_apart, labels_carry_apart, meetings_are_met, pairs_meet,
};

/// Texts of the resolved answer are apart where its ids meet, if ids with labels meet as the old ones did.
pub fn labelled_answers_are_apart()
    ensures { LabelledAnswersAreApartGiven }
{
    hygiene_tells_met_apart();
    labels_carry_apart();
    labels_tell_texts();
    labels_are_ids();
    loose_names_were_loose();
    meetings_are_met();
    pairs_meet();
}
