//! The renamer that gives short texts by how often ids are used.
ghost use Rattle.std.specs.Prelude.{◌≡◌, false, true, codes, refl};
ghost use Rattle.swc_base_rename_substitution.specs.Names.{Id as Id'};
ghost use Rattle.swc_base_rename_by_use.specs.ByUse.{moved, own, text_by_use};
ghost use Rattle.swc_base_rename_by_use.specs.ByUseLaws.{below, differ-by_use, identifier-by_use};
ghost use Rattle.swc_base_rename_by_use.specs.ShortLaws.{none_is_withheld};

use std::alloc::Global;
use std::collections::HashSet;
use swc_base_rename::Renamer;
use swc_base_rename_by_use::{TextsByUse, texts_by_use};
use swc_base_rename_naming::NewTexts;
use swc_tree_marks::{Id, JsWord, NoMemory, PassError};
use swc_tree_modules::{Module, Script};

/// Gives ids short texts in place of their own: those that are used most get the shortest that they can share, written in the characters that are met
/// most in what stays. Where such a text isn't free, an id gets the first that is, in the order of `Shortest`.
///
/// The texts are those of `Shortest`, and it preserves no ids. Which text is whose is read off the program when it is asked for the preserved ids;
/// nothing is promised of that choice.
#[derive(Drop)]
pub struct ShortestByUse {
    texts: TextsByUse,
}

impl ShortestByUse {
    /// A renamer that has read no program: until it does, each id gets all short texts in order.
    pub fn new(alloc: Global) -> ShortestByUse
        ensures { (x : Id') → own result.texts x ≡ 0 }
    {
        ShortestByUse {
            texts: TextsByUse::new(alloc),
        }
    }
}

impl Renamer for ShortestByUse {
    const RESET_N: bool = true;

    const MANGLE: bool = false;

    ghost RESET_N = { true };

    ghost MANGLE = { false };

    ghost text = { λ r x n. text_by_use r.texts x n };

    /// No id. The texts are then those by use of this module.
    ///
    /// # Errors
    ///
    /// `NoMemory` where memory is refused; the texts stay.
    fn preserved_ids_for_module(
        &mut self,
        alloc: Global,
        program: &Module,
    ) -> Result<HashSet<Id>, NoMemory> {
        let preserved = HashSet::new(alloc);
        self.texts = texts_by_use(alloc, &preserved, program.body.as_slice())?;
        Ok(preserved)
    }

    /// No id. The texts are then those by use of this script.
    ///
    /// # Errors
    ///
    /// `NoMemory` where memory is refused; the texts stay.
    fn preserved_ids_for_script(
        &mut self,
        alloc: Global,
        program: &Script,
    ) -> Result<HashSet<Id>, NoMemory> {
        let preserved = HashSet::new(alloc);
        self.texts = texts_by_use(alloc, &preserved, program.body.as_slice())?;
        Ok(preserved)
    }

    /// The id's own short text at counter 0, and then the other short texts.
    ///
    /// # Errors
    ///
    /// `CounterSpent` at the greatest `usize`, and `NoMemory`. The counter then stays.
    fn new_name_for(&self, alloc: Global, orig: &Id, n: &mut usize) -> Result<JsWord, PassError> {
        self.texts.new_text(alloc, orig, n)
    }

    ghost differ = { λ r x m n. differ-by_use r.texts x m n };

    ghost identifiers = { λ r x n fits _. identifier-by_use r.texts x n fits };

    ghost no_eval = { λ r x n fits. none_is_withheld (moved (own r.texts x) n) (codes "eval") (below r.texts x n fits) refl };

    ghost no_arguments = { λ r x n fits. none_is_withheld (moved (own r.texts x) n) (codes "arguments") (below r.texts x n fits) refl };
}
