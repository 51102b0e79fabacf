//! New texts for ids, by a counter.
ghost use Rattle.std.specs.Prelude.{◌≡◌, ◌<◌, ◌^◌, IfOk, IfErr, OnOk};
ghost use Rattle.swc_base_rename_naming.specs.Counters.{IsCounted, IsRefusal};
ghost use Rattle.swc_base_rename_naming.specs.Texts.{numbered as numbered_text};
ghost use Rattle.swc_base_rename_naming.specs.TextLaws.{differ-numbered};

use crate::texts::numbered;
use std::alloc::Global;
use swc_tree_marks::{Id, JsWord, PassError};

/// Texts for ids: each id has one for each counter from 0 to the greatest `usize`.
pub trait NewTexts {
    ghost use Rattle.std.specs.Prelude.{◌≡◌, ℕ, true, List};
    ghost use Rattle.swc_base_rename_substitution.specs.Names.{Id};

    /// The text of an id at a counter.
    ghost text: { Self → Id → ℕ → List ℕ };

    /// Whether ids of one text are known to have the same texts, so that what one could not get another need not try; by default
    /// they are not.
    fn are_alike(&self) -> bool
        ensures { result ≡ true → (x y : Id) → x.0 ≡ y.0 → (n : ℕ) → text self.now x n ≡ text self.now y n }
    {
        false
    }

    /// The text of an id at a counter, which goes one up.
    ///
    /// # Errors
    ///
    /// `CounterSpent` at the greatest `usize` alone, where the counter stays, and `NoMemory`.
    fn new_text(&self, alloc: Global, id: &Id, n: &mut usize) -> Result<JsWord, PassError>
        ensures made { IfOk result (λ made. made ≡ text self.now id.now n.old) }
        ensures counted { OnOk result (IsCounted n.old n.new) }
        ensures refused { IfErr result (λ e. IsRefusal e n.old n.new) };

    /// Different counters give one id different texts.
    ghost differ: { (r : Self) (x : Id) (m n : ℕ) → m < 2 ^ 64 → n < 2 ^ 64 → text r x m ≡ text r x n → m ≡ n };
}

/// The texts of hygiene: an id's own at counter 0, and then its own followed by the counter.
#[derive(Clone, Copy, Debug, Default, PartialEq, Eq)]
pub struct HygieneTexts;

impl NewTexts for HygieneTexts {
    ghost text = { λ _ x n. numbered_text x.0 n };

    fn are_alike(&self) -> bool {
        true
    }

    /// The id's text at counter 0, else the text followed by the counter in decimal.
    ///
    /// # Errors
    ///
    /// `CounterSpent` at the greatest `usize`, and `NoMemory`. The counter then stays.
    fn new_text(&self, alloc: Global, id: &Id, n: &mut usize) -> Result<JsWord, PassError> {
        let next = n.checked_add(1).ok_or(PassError::CounterSpent)?;
        let text = numbered(alloc, id.0.as_str(), *n)?;
        *n = next;
        Ok(text)
    }

    ghost differ = { λ _ x m n. differ-numbered x.0 m n };
}
