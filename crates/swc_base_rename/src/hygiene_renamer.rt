//! The renamer of hygiene.
ghost use Rattle.std.specs.Prelude.{true, false, codes, refl, IfOk, IsOk};
ghost use Rattle.swc_base_rename_naming.specs.Ids.{HasJust};
ghost use Rattle.swc_base_rename_naming.specs.Texts.{numbered as numbered_text};
ghost use Rattle.swc_base_rename_naming.specs.TextLaws.{differ-numbered, identifier-numbered, word-numbered};

use crate::lawful::Renamer;
use std::alloc::Global;
use std::collections::HashSet;
use swc_base_rename_naming::{HygieneTexts, NewTexts};
use swc_tree_marks::{Id, JsWord, NoMemory, PassError};
use swc_tree_modules::{Module, Script};

/// Gives an id its own text at counter 0, and then its text followed by the counter: `a`, `a1`, `a2`.
///
/// It preserves no ids.
#[derive(Clone, Copy, Debug, Default, PartialEq, Eq)]
pub struct HygieneRenamer;

impl Renamer for HygieneRenamer {
    const RESET_N: bool = true;

    const MANGLE: bool = false;

    ghost RESET_N = { true };

    ghost MANGLE = { false };

    ghost text = { λ _ x n. numbered_text x.0 n };

    /// No id.
    ///
    /// # Errors
    ///
    /// None.
    fn preserved_ids_for_module(
        &mut self,
        alloc: Global,
        _program: &Module,
    ) -> Result<HashSet<Id>, NoMemory>
        ensures just { IfOk result (HasJust (λ _. false)) }
        ensures succeeds { IsOk result }
    {
        Ok(HashSet::new(alloc))
    }

    /// No id.
    ///
    /// # Errors
    ///
    /// None.
    fn preserved_ids_for_script(
        &mut self,
        alloc: Global,
        _program: &Script,
    ) -> Result<HashSet<Id>, NoMemory>
        ensures just { IfOk result (HasJust (λ _. false)) }
        ensures succeeds { IsOk result }
    {
        Ok(HashSet::new(alloc))
    }

    fn are_alike(&self) -> bool {
        true
    }

    /// The id's text at counter 0, else the text followed by the counter in decimal.
    ///
    /// # Errors
    ///
    /// `CounterSpent` at the greatest `usize`, and `NoMemory`. The counter then stays.
    fn new_name_for(&self, alloc: Global, orig: &Id, n: &mut usize) -> Result<JsWord, PassError> {
        HygieneTexts.new_text(alloc, orig, n)
    }

    ghost differ = { λ _ x m n. differ-numbered x.0 m n };

    ghost identifiers = { λ _ x n. identifier-numbered x.0 n };

    ghost no_eval = { λ _ x n fits. word-numbered x.0 (codes "eval") n fits refl };

    ghost no_arguments = { λ _ x n fits. word-numbered x.0 (codes "arguments") n fits refl };
}
