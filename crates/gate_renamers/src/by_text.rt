//! A renamer that goes by an id and by a counter.
ghost use Rattle.std.specs.Prelude.{codes, refl};
ghost use Rattle.swc_base_rename_naming.specs.Texts.{numbered as numbered_text};
ghost use Rattle.swc_base_rename_naming.specs.TextLaws.{differ-numbered, identifier-numbered, word-numbered};

use std::alloc::Global;
use std::collections::HashSet;
use swc_base_rename::{HygieneRenamer, Renamer};
use swc_tree_marks::{Id, JsWord, NoMemory, PassError};
use swc_tree_modules::{Module, Script};

/// The texts of hygiene under other settings: an id's own at counter 0, and then its own with the counter behind it.
#[derive(Clone, Copy, Debug, Default)]
pub struct Suffixed<const MANGLES: bool, const RESETS: bool>;

impl<const MANGLES: bool, const RESETS: bool> Renamer for Suffixed<MANGLES, RESETS> {
    const RESET_N: bool = RESETS;

    const MANGLE: bool = MANGLES;

    ghost RESET_N = { RESETS };

    ghost MANGLE = { MANGLES };

    ghost text = { λ _ x n. numbered_text x.0 n };

    fn preserved_ids_for_module(
        &mut self,
        alloc: Global,
        _program: &Module,
    ) -> Result<HashSet<Id>, NoMemory> {
        Ok(HashSet::new(alloc))
    }

    fn preserved_ids_for_script(
        &mut self,
        alloc: Global,
        _program: &Script,
    ) -> Result<HashSet<Id>, NoMemory> {
        Ok(HashSet::new(alloc))
    }

    fn are_alike(&self) -> bool {
        true
    }

    fn new_name_for(&self, alloc: Global, orig: &Id, n: &mut usize) -> Result<JsWord, PassError> {
        HygieneRenamer.new_name_for(alloc, orig, n)
    }

    ghost differ = { λ _ x m n. differ-numbered x.0 m n };

    ghost identifiers = { λ _ x n. identifier-numbered x.0 n };

    ghost no_eval = { λ _ x n fits. word-numbered x.0 (codes "eval") n fits refl };

    ghost no_arguments = { λ _ x n fits. word-numbered x.0 (codes "arguments") n fits refl };
}
