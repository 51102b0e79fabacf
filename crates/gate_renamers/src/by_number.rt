//! Renamers that tests want.
ghost use Rattle.std.specs.Prelude.{◌≡◌, ◌++◌, codes, decimal, refl, IfOk, true, false};
ghost use Rattle.std.specs.List.{list_any};
ghost use Rattle.swc_base_rename_substitution.specs.Names.{same_id};
ghost use Rattle.swc_base_rename_naming.specs.Ids.{HasJust};
ghost use Rattle.swc_base_rename_naming.specs.TextLaws.{differ-decimal, identifier-decimal, is_none-decimal};

use std::alloc::Global;
use std::collections::HashSet;
use swc_base_rename::Renamer;
use swc_tree_items::Text;
use swc_tree_marks::{Id, JsWord, NoMemory, PassError};
use swc_tree_modules::{Module, Script};

/// Gives ids the text `v` with the counter behind it, and preserves the ids that it is made with.
#[derive(Drop)]
pub struct Numbered<const MANGLES: bool, const RESETS: bool> {
    preserved: Vec<Id>,
}

impl<const MANGLES: bool, const RESETS: bool> Numbered<MANGLES, RESETS> {
    /// A renamer that preserves these ids.
    pub fn new(preserved: Vec<Id>) -> Numbered<MANGLES, RESETS>
        ensures { result.preserved ≡ preserved }
    {
        Numbered { preserved }
    }
}

// The ids of a list.
fn set_of(alloc: Global, ids: &[Id]) -> Result<HashSet<Id>, NoMemory>
    ensures { IfOk result (HasJust (λ x. list_any (λ id. same_id id x) ids.now)) }
{
    let mut set = HashSet::new(alloc);
    for id in ids {
        set.insert((id.0.clone()?, id.1.clone()?))?;
    }
    Ok(set)
}

impl<const MANGLES: bool, const RESETS: bool> Renamer for Numbered<MANGLES, RESETS> {
    const RESET_N: bool = RESETS;

    const MANGLE: bool = MANGLES;

    ghost RESET_N = { RESETS };

    ghost MANGLE = { MANGLES };

    ghost text = { λ _ _ n. codes "v" ++ decimal n };

    ghost preserved = { λ r _ x. list_any (λ id. same_id id x) r.preserved.items };

    ghost asked = { λ old _ new. new ≡ old };

    fn preserved_ids_for_module(
        &mut self,
        alloc: Global,
        _program: &Module,
    ) -> Result<HashSet<Id>, NoMemory> {
        set_of(alloc, self.preserved.as_slice())
    }

    fn preserved_ids_for_script(
        &mut self,
        alloc: Global,
        _program: &Script,
    ) -> Result<HashSet<Id>, NoMemory> {
        set_of(alloc, self.preserved.as_slice())
    }

    fn new_name_for(&self, alloc: Global, _orig: &Id, n: &mut usize) -> Result<JsWord, PassError> {
        let next = n.checked_add(1).ok_or(PassError::CounterSpent)?;
        let count = *n;
        let name = Text::from_string(alloc, format!(in alloc; "v{count}")?)?;
        *n = next;
        Ok(name)
    }

    ghost differ = { λ _ _ m n. differ-decimal (codes "v") m n };

    ghost identifiers = { λ _ _ n fits _. identifier-decimal (codes "v") n fits refl };

    ghost no_eval = { λ _ _ n fits. is_none-decimal (codes "v") (codes "eval") n fits refl };

    ghost no_arguments = { λ _ _ n fits. is_none-decimal (codes "v") (codes "arguments") n fits refl };
}

/// Refuses each call for want of memory.
#[derive(Clone, Copy, Debug, Default)]
pub struct Refusing;

impl Renamer for Refusing {
    const RESET_N: bool = true;

    const MANGLE: bool = false;

    ghost RESET_N = { true };

    ghost MANGLE = { false };

    ghost text = { λ _ _ n. codes "v" ++ decimal n };

    fn preserved_ids_for_module(
        &mut self,
        _alloc: Global,
        _program: &Module,
    ) -> Result<HashSet<Id>, NoMemory> {
        Err(NoMemory)
    }

    fn preserved_ids_for_script(
        &mut self,
        _alloc: Global,
        _program: &Script,
    ) -> Result<HashSet<Id>, NoMemory> {
        Err(NoMemory)
    }

    fn new_name_for(
        &self,
        _alloc: Global,
        _orig: &Id,
        _n: &mut usize,
    ) -> Result<JsWord, PassError> {
        Err(PassError::NoMemory)
    }

    ghost differ = { λ _ _ m n. differ-decimal (codes "v") m n };

    ghost identifiers = { λ _ _ n fits _. identifier-decimal (codes "v") n fits refl };

    ghost no_eval = { λ _ _ n fits. is_none-decimal (codes "v") (codes "eval") n fits refl };

    ghost no_arguments = { λ _ _ n fits. is_none-decimal (codes "v") (codes "arguments") n fits refl };
}
