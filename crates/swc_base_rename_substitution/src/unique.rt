//! Ids, each once.
ghost use Rattle.std.specs.Prelude.{◌≡◌, ℕ, List, [], true, None, IfOk, OnOk, if◌then◌else◌};
ghost use Rattle.std.specs.BTreeMap.{get_by_text};
ghost use Rattle.std.specs.Str.{bytes_eq};
ghost use Rattle.swc_base_rename_substitution.specs.Names.{Id as Id', same_id};
ghost use Rattle.swc_base_rename_substitution.specs.Exports.{AreSeen, contexts_of as contexts_in, distinct as are_distinct, has_seen, with_one_more};

use crate::names::copy;
use std::alloc::Global;
use std::collections::BTreeMap;
use swc_tree_items::Items;
use swc_tree_marks::{Id, NoMemory, SyntaxContext};

/// The ids that were seen: the contexts of each text. The table is ordered, so that no names can make it slow.
#[derive(Drop)]
struct Seen {
    contexts: BTreeMap<String, Items<SyntaxContext>>,
}

impl Seen {
    fn new(alloc: Global) -> Seen
        ensures { AreSeen [] result.contexts }
    {
        Seen {
            contexts: BTreeMap::new(alloc),
        }
    }

    fn has(&self, id: &Id) -> bool
        ensures { result ≡ has_seen self.now.contexts id.now }
    {
        match self.contexts.get(id.0.as_str()) {
            Some(contexts) => contexts.as_slice().contains(&id.1),
            None => false,
        }
    }

    // Takes the contexts of a text out.
    fn take(&mut self, alloc: Global, text: &str) -> Items<SyntaxContext>
        ensures taken { result ≡ contexts_in self.old.contexts text.now }
        ensures left { (x : List ℕ) → get_by_text self.new.contexts x ≡ (if bytes_eq text.now x then None else get_by_text self.old.contexts x) }
    {
        match self.contexts.remove(text) {
            Some(contexts) => contexts,
            None => Items::new(alloc),
        }
    }

    fn insert(&mut self, alloc: Global, id: Id) -> Result<(), NoMemory>
        ensures { OnOk result ((x : Id') → has_seen self.new.contexts x ≡ (if same_id id x then true else has_seen self.old.contexts x)) }
    {
        let (text, context) = id;
        let mut contexts = self.take(alloc, text.as_str());
        contexts.push(context)?;
        let key = text.into_string(alloc)?;
        self.contexts.insert(key, contexts)?;
        Ok(())
    }
}

// Adds an id to those that are kept, unless it is among those that were seen.
fn keep_new(alloc: Global, id: Id, kept: &mut Items<Id>, seen: &mut Seen) -> Result<(), NoMemory>
    requires { AreSeen kept.old seen.old.contexts }
    ensures kept { OnOk result (kept.new ≡ with_one_more id kept.old) }
    ensures seen { OnOk result (AreSeen kept.new seen.new.contexts) }
{
    if !seen.has(&id) {
        kept.push(copy(&id)?)?;
        seen.insert(alloc, id)?;
    }
    Ok(())
}

/// The ids, each once, in the order in which they first stand. It costs the logarithm of how many there are for each, and of
/// those with its text how many contexts they have.
#[tactic(auto, using(crate::proofs::Distinct::one_more))]
pub fn distinct(alloc: Global, ids: Items<Id>) -> Result<Items<Id>, NoMemory>
    ensures { IfOk result (λ kept. kept ≡ are_distinct ids) }
{
    let mut kept = Items::new(alloc);
    let mut seen = Seen::new(alloc);
    for id in ids.into_vec() {
        keep_new(alloc, id, &mut kept, &mut seen)?;
    }
    Ok(kept)
}
