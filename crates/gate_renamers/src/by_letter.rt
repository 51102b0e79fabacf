//! A renamer that a user of this library writes.
ghost use Rattle.std.specs.Prelude.{false, true, codes, refl};
ghost use Rattle.gate_renamers.specs.ByLetter.{by_letter, differ-by_letter, identifier-by_letter, no_word};

use std::alloc::Global;
use std::collections::HashSet;
use swc_base_rename::{Renamer, numbered};
use swc_tree_marks::{Id, JsWord, NoMemory, PassError};
use swc_tree_modules::{Module, Script};

/// Gives ids short texts in place of their own: `a` to `z`, then `a1` to `z1`, and so on.
#[derive(Clone, Copy, Debug, Default)]
pub struct Letters;

impl Renamer for Letters {
    const RESET_N: bool = false;

    const MANGLE: bool = true;

    ghost RESET_N = { false };

    ghost MANGLE = { true };

    ghost text = { λ _ _ n. by_letter n };

    fn preserved_ids_for_module(
        &mut self,
        alloc: Global,
        _program: &Module,
    ) -> Result<HashSet<Id>, NoMemory> {
        Ok(HashSet::new(alloc))
    }

    fn preserved_ids_for_script(
        &mut self,
        alloc: Global,
        _program: &Script,
    ) -> Result<HashSet<Id>, NoMemory> {
        Ok(HashSet::new(alloc))
    }

    fn new_name_for(&self, alloc: Global, _orig: &Id, n: &mut usize) -> Result<JsWord, PassError> {
        let next = n.checked_add(1).ok_or(PassError::CounterSpent)?;
        let letter = char::from(b'a' + (*n % 26) as u8);
        let text = format!(in alloc; "{letter}")?;
        let name = numbered(alloc, text.as_str(), *n / 26)?;
        *n = next;
        Ok(name)
    }

    ghost differ = { λ _ _ m n. differ-by_letter m n };

    ghost identifiers = { λ _ _ n fits _. identifier-by_letter n fits };

    ghost no_eval = { λ _ _ n fits e. no_word n (codes "eval") fits refl refl e };

    ghost no_arguments = { λ _ _ n fits e. no_word n (codes "arguments") fits refl refl e };
}
