//! Counters at which the search for free texts goes on.
ghost use Rattle.std.specs.Prelude.{◌≡◌, ◌==◌, ℕ, List, OnOk, if◌then◌else◌};
ghost use Rattle.std.specs.Str.{bytes_eq};
ghost use Rattle.swc_base_rename_naming.specs.Tried.{tried_at};

use std::alloc::Global;
use std::collections::BTreeMap;
use swc_tree_marks::{JsWord, NoMemory};

/// For texts that ids of one scope share, the counters below which each gives a text that is taken there. Without it the ids
/// of a scope that share a text would cost the square of how many they are.
#[derive(Drop)]
pub struct Tried {
    counters: BTreeMap<String, usize>,
    scope: usize,
}

impl Tried {
    /// Nothing was tried.
    pub fn new(alloc: Global) -> Tried
        ensures { (s : ℕ) (x : List ℕ) → tried_at result s x ≡ 0 }
    {
        Tried {
            counters: BTreeMap::new(alloc),
            scope: 0,
        }
    }

    /// The counter at which the search for an id of a text goes on at a scope.
    pub fn counter(&self, scope: usize, text: &str) -> usize
        ensures { result ≡ tried_at self.now scope text.now }
    {
        if self.scope != scope {
            return 0;
        }
        match self.counters.get(text) {
            Some(counter) => *counter,
            None => 0,
        }
    }

    // Those of other scopes go.
    fn enter(&mut self, alloc: Global, scope: usize)
        ensures scope { self.new.scope ≡ scope }
        ensures kept { (x : List ℕ) → tried_at self.new scope x ≡ tried_at self.old scope x }
    {
        if self.scope != scope {
            self.counters = BTreeMap::new(alloc);
            self.scope = scope;
        }
    }

    /// Puts down a counter for a text at a scope. Those of other scopes go.
    ///
    /// # Errors
    ///
    /// `NoMemory` where memory is refused.
    pub fn put(
        &mut self,
        alloc: Global,
        scope: usize,
        text: JsWord,
        counter: usize,
    ) -> Result<(), NoMemory>
        ensures { OnOk result ((s : ℕ) (x : List ℕ) → tried_at self.new s x ≡ (if scope == s then (if bytes_eq text x then counter else tried_at self.old s x) else 0)) }
    {
        self.enter(alloc, scope);
        let key = text.into_string(alloc)?;
        self.counters.insert(key, counter)?;
        Ok(())
    }
}
