//! The ids of a program, by number.

use crate::known::Known;
use std::alloc::Global;
use std::collections::{BTreeMap, HashSet};
use std::hash::{FoldHasher, Hash, Hasher};
use swc_base_rename_analysis::Name;
use swc_tree_marks::{Id, Ident, JsWord, NoMemory, SyntaxContext};
use swc_tree_scoping::{Standing, is_binding};

// An id by its hash first: two whose hashes differ are told apart by one comparison of numbers.
type Key<'a> = (u64, (&'a JsWord, &'a SyntaxContext));

// How the id of an identifier is looked up.
fn key_of(ident: &Ident) -> Key<'_> {
    let mut hasher = FoldHasher::default();
    ident.sym.hash(&mut hasher);
    ident.ctxt.hash(&mut hasher);
    (hasher.finish(), (&ident.sym, &ident.ctxt))
}

/// The ids that were met, each with its number. A look-up costs the logarithm of how many there are, whatever they are.
#[derive(Drop)]
pub struct Ids<'a> {
    numbers: BTreeMap<Key<'a>, usize>,
    preserved: &'a HashSet<Id>,
    pub known: Vec<Known<'a>>,
}

impl<'a> Ids<'a> {
    /// No ids, where these are preserved.
    pub fn new(alloc: Global, preserved: &'a HashSet<Id>) -> Ids<'a> {
        Ids {
            numbers: BTreeMap::new(alloc),
            preserved,
            known: Vec::new(alloc),
        }
    }

    // The number of an id, a new one where it was not met before.
    fn number(&mut self, ident: &'a Ident) -> Result<usize, NoMemory> {
        let key = key_of(ident);
        if let Some(number) = self.numbers.get(&key) {
            return Ok(*number);
        }
        let number = self.known.len();
        self.numbers.insert(key, number)?;
        let known = Known::new(&ident.sym, &ident.ctxt, self.preserved)?;
        self.known.push(known)?;
        Ok(number)
    }

    /// A name or a label is met. Answers the number of its id.
    pub fn meet(&mut self, name: &Name<'a>) -> Result<usize, NoMemory> {
        let number = self.number(name.ident)?;
        if let Some(known) = self.known.get_mut(number) {
            if name.standing != Standing::Label {
                known.uses = known.uses.saturating_add(1);
            }
            known.is_bound = known.is_bound || is_binding(name.standing);
            known.stands_outside = known.stands_outside || !name.exported;
        }
        Ok(number)
    }
}
