//! The renamer that gives ids short texts.
ghost use Rattle.std.specs.Prelude.{◌≡◌, false, true, codes, refl, IfOk, IsOk};
ghost use Rattle.swc_base_rename_naming.specs.Ids.{HasJust};
ghost use Rattle.swc_base_rename_by_use.specs.ShortTexts.{short_text as text_of};
ghost use Rattle.swc_base_rename_by_use.specs.ShortLaws.{differ-short, identifier-short, none_is_withheld};

use std::alloc::Global;
use std::collections::HashSet;
use swc_base_rename::Renamer;
use swc_base_rename_by_use::ShortTexts;
use swc_base_rename_naming::NewTexts;
use swc_tree_marks::{Id, JsWord, NoMemory, PassError};
use swc_tree_modules::{Module, Script};

/// Gives ids the shortest texts in place of their own: `a` to `z`, `A` to `Z`, `$`, `_`, then those of two characters, and so on. Scopes
/// beside one another share texts, and an id gets the first text that nothing in its scope needs.
///
/// No text is a reserved word, `eval`, `arguments`, `undefined`, `NaN` or `Infinity`. It preserves no ids.
#[derive(Clone, Copy, Debug, Default, PartialEq, Eq)]
pub struct Shortest;

impl Renamer for Shortest {
    const RESET_N: bool = false;

    const MANGLE: bool = true;

    ghost RESET_N = { false };

    ghost MANGLE = { true };

    ghost text = { λ _ _ n. text_of n };

    ghost asked = { λ old _ new. new ≡ old };

    /// No id.
    ///
    /// # Errors
    ///
    /// None.
    fn preserved_ids_for_module(
        &mut self,
        alloc: Global,
        _program: &Module,
    ) -> Result<HashSet<Id>, NoMemory>
        ensures just { IfOk result (HasJust (λ _. false)) }
        ensures asked { self.new ≡ self.old }
        ensures succeeds { IsOk result }
    {
        Ok(HashSet::new(alloc))
    }

    /// No id.
    ///
    /// # Errors
    ///
    /// None.
    fn preserved_ids_for_script(
        &mut self,
        alloc: Global,
        _program: &Script,
    ) -> Result<HashSet<Id>, NoMemory>
        ensures just { IfOk result (HasJust (λ _. false)) }
        ensures asked { self.new ≡ self.old }
        ensures succeeds { IsOk result }
    {
        Ok(HashSet::new(alloc))
    }

    fn are_alike(&self) -> bool {
        true
    }

    /// The short text of the counter, whatever the id.
    ///
    /// # Errors
    ///
    /// `CounterSpent` at the greatest `usize`, and `NoMemory`. The counter then stays.
    fn new_name_for(&self, alloc: Global, orig: &Id, n: &mut usize) -> Result<JsWord, PassError> {
        ShortTexts.new_text(alloc, orig, n)
    }

    ghost differ = { λ _ _ m n. differ-short m n };

    ghost identifiers = { λ _ _ n fits _. identifier-short n fits };

    ghost no_eval = { λ _ _ n fits. none_is_withheld n (codes "eval") fits refl };

    ghost no_arguments = { λ _ _ n fits. none_is_withheld n (codes "arguments") fits refl };
}
