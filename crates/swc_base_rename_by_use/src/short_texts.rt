//! Short texts for ids.
ghost use Rattle.swc_base_rename_by_use.specs.ShortTexts.{short_text as text_of};
ghost use Rattle.swc_base_rename_by_use.specs.ShortLaws.{differ-short};

use crate::short::short_text;
use std::alloc::Global;
use swc_base_rename_naming::NewTexts;
use swc_tree_marks::{Id, JsWord, PassError};

/// Gives each id the same short texts, whatever its own.
#[derive(Clone, Copy, Debug, Default, PartialEq, Eq)]
pub struct ShortTexts;

impl NewTexts for ShortTexts {
    ghost text = { λ _ _ n. text_of n };

    fn are_alike(&self) -> bool {
        true
    }

    /// The short text of the counter.
    ///
    /// # Errors
    ///
    /// `CounterSpent` at the greatest `usize`, and `NoMemory`. The counter then stays.
    fn new_text(&self, alloc: Global, _id: &Id, n: &mut usize) -> Result<JsWord, PassError> {
        let next = n.checked_add(1).ok_or(PassError::CounterSpent)?;
        let text = short_text(alloc, *n)?;
        *n = next;
        Ok(text)
    }

    ghost differ = { λ _ _ m n. differ-short m n };
}
