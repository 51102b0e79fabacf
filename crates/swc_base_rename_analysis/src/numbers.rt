//! Ids by number.
ghost use Rattle.std.specs.Prelude.{◌≡◌, Some, [], IfOk, OnOk, map};
ghost use Rattle.std.specs.BTreeMap.{get_by};
ghost use Rattle.swc_base_rename_analysis.specs.Hashed.{hash_of as is_hash_of};
ghost use Rattle.swc_base_rename_analysis.specs.Numbers.{IsTable, id_met, is_analysed_text as is_text_analysed, known_by, known_ids, known_of, number_in, seen, with_id, with_met};
ghost use Rattle.swc_base_rename_analysis.specs.Walk.{met_of};

use crate::hashed::hash_of;
use crate::layout::Name;
use std::alloc::{AllocError, Global};
use std::collections::BTreeMap;
use swc_tree_marks::{Id, Ident, JsWord, NoMemory, SyntaxContext};
use swc_tree_scoping::{is_binding, is_reference};

/// What is known of an id.
#[derive(Drop)]
pub struct Entry {
    pub id: Id,
    /// The positions at which it occurs, in order.
    pub positions: Vec<usize>,
    /// Whether a name binds it.
    pub is_bound: bool,
    /// Whether it stands as a name or a label outside of export lists.
    pub stands_outside: bool,
}

/// Whether ids of the text are not passed over, as those of `arguments` are.
pub fn is_analysed(text: &JsWord) -> bool
    ensures { result ≡ is_text_analysed text.now }
{
    text.as_str() != "arguments"
}

impl Entry {
    // The name of that position, which has the id, is met.
    fn see(&mut self, position: usize, name: &Name) -> Result<(), AllocError>
        ensures { OnOk result (known_of self.new ≡ seen position (met_of name.now) (known_of self.old)) }
    {
        let standing = name.standing;
        if (is_binding(standing) || is_reference(standing)) && is_analysed(&self.id.0) {
            self.positions.push(position)?;
        }
        self.is_bound = self.is_bound || is_binding(standing);
        self.stands_outside = self.stands_outside || !name.exported;
        Ok(())
    }
}

/// The ids that were met, each with its number.
///
/// A look-up costs the logarithm of how many there are, whatever the ids.
#[derive(Drop)]
pub struct Entries<'a> {
    numbers: BTreeMap<Key<'a>, usize>,
    pub entries: Vec<Entry>,
}

// An id by its hash first: two whose hashes differ are told apart by one comparison of numbers.
type Key<'a> = (u64, (&'a JsWord, &'a SyntaxContext));

// How the id of an identifier is looked up.
fn key_of<'a>(ident: &'a Ident) -> Key<'a>
    ensures hash { result.0 ≡ is_hash_of (ident.now.sym, ident.now.ctxt) }
    ensures text { result.1.0.now ≡ ident.now.sym }
    ensures context { result.1.1.now ≡ ident.now.ctxt }
{
    (hash_of(ident), (&ident.sym, &ident.ctxt))
}

impl<'a> Entries<'a> {
    /// No ids.
    pub fn new(alloc: Global) -> Entries<'a>
        ensures table { IsTable result }
        ensures ids { known_ids result ≡ [] }
    {
        Entries {
            numbers: BTreeMap::new(alloc),
            entries: Vec::new(alloc),
        }
    }

    // The number of an id, a new one where it was not met before.
    fn number(&mut self, alloc: Global, ident: &'a Ident) -> Result<usize, NoMemory>
        requires { IsTable self.old }
        ensures table { OnOk result (IsTable self.new) }
        ensures ids { OnOk result (known_ids self.new ≡ with_id (known_ids self.old) (ident.now.sym, ident.now.ctxt)) }
        ensures number { IfOk result (λ number. Some number ≡ number_in (known_ids self.new) (ident.now.sym, ident.now.ctxt)) }
    {
        let key = key_of(ident);
        match self.numbers.get(&key) {
            Some(number) => Ok(*number),
            None => {
                let number = self.entries.len();
                self.numbers.insert(key, number)?;
                self.entries.push(Entry {
                    id: ident.to_id()?,
                    positions: Vec::new(alloc),
                    is_bound: false,
                    stands_outside: false,
                })?;
                Ok(number)
            }
        }
    }

    /// The name of that position is met. Answers the number of its id.
    pub fn meet(
        &mut self,
        alloc: Global,
        position: usize,
        name: &Name<'a>,
    ) -> Result<usize, NoMemory>
        requires { IsTable self.old }
        ensures table { OnOk result (IsTable self.new) }
        ensures ids { OnOk result (known_ids self.new ≡ with_met position (met_of name.now) (known_ids self.old)) }
        ensures number { IfOk result (λ number. Some number ≡ number_in (known_ids self.new) (id_met (met_of name.now))) }
    {
        let number = self.number(alloc, name.ident)?;
        if let Some(entry) = self.entries.get_mut(number) {
            entry.see(position, name)?;
        }
        Ok(number)
    }
}
