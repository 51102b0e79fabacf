//! Which ids were given a text, by their numbers.
ghost use Rattle.std.specs.Prelude.{◌≡◌, ℕ, List, [], OnOk, OnErr, MatchOption, ◌∷◌, ◌++◌, string_bytes, if◌then◌else◌};
ghost use Rattle.std.specs.Str.{bytes_eq};
ghost use Rattle.std.specs.Iterator.{YieldsFirstRef, item_count};
ghost use Rattle.swc_base_rename_naming.specs.Chained.{IsAsBefore, IsChild, IsGiven, IsPushed, ids_held, ids_in, ids_left, ids_of, parents_ids};

use std::alloc::{AllocError, Global};
use std::collections::BTreeMap;
use swc_tree_marks::{JsWord, NoMemory};

/// The numbers of the ids that each text was given to, in the order in which it was.
///
/// A look-up costs the logarithm of how many texts there are, whatever the texts: a hash of a seed that is fixed would let a
/// program choose names that all collide.
#[derive(Drop)]
struct IdsByText {
    alloc: Global,
    ids: BTreeMap<String, Vec<usize>>,
}

impl IdsByText {
    fn new(alloc: Global) -> IdsByText
        ensures { (x : List ℕ) → ids_held result x ≡ [] }
    {
        IdsByText {
            alloc,
            ids: BTreeMap::new(alloc),
        }
    }

    fn get(&self, text: &str) -> &[usize]
        ensures { result.now ≡ ids_held self.now text.now }
    {
        match self.ids.get(text) {
            Some(ids) => ids.as_slice(),
            None => &[],
        }
    }

    // Gives a text to one id more. Where memory is refused, each text has the ids that it had.
    fn push(&mut self, text: JsWord, id: usize) -> Result<(), NoMemory>
        ensures pushed { OnOk result (IsGiven text id self.old self.new) }
        ensures refused { OnErr result (IsAsBefore self.old self.new) }
    {
        give(&mut self.ids, text.into_string(self.alloc)?, id)?;
        Ok(())
    }
}

// Gives a text to one id more. Where memory is refused, each text has the ids that it had.
fn give(
    holders: &mut BTreeMap<String, Vec<usize>>,
    text: String,
    id: usize,
) -> Result<(), AllocError>
    ensures pushed { OnOk result ((x : List ℕ) → ids_in holders.new x ≡ (if bytes_eq (string_bytes text) x then ids_in holders.old x ++ id ∷ [] else ids_in holders.old x)) }
    ensures refused { OnErr result ((x : List ℕ) → ids_in holders.new x ≡ ids_in holders.old x) }
{
    holders.entry(text)?.or_default().push(id)?;
    Ok(())
}

/// The maps that a map was made from, the nearest first.
#[derive(Clone, Copy)]
enum Parents<'a> {
    Nobody,
    Chain(&'a IdsByText, &'a Parents<'a>),
}

/// The ids that a text was given to, in a map and in those that it was made from.
///
/// A map borrows the one that it was made from. That one stays as it is, and its ids come after the map's own.
#[derive(Drop)]
pub struct ReverseMap<'a> {
    own: IdsByText,
    parents: Parents<'a>,
}

impl ReverseMap<'_> {
    /// A map that was made from none, in which no text was given to an id.
    pub fn new(alloc: Global) -> ReverseMap<'static>
        ensures { (x : List ℕ) → ids_of result x ≡ [] }
    {
        ReverseMap {
            own: IdsByText::new(alloc),
            parents: Parents::Nobody,
        }
    }

    /// A map that is made from this one, and has no ids of its own yet.
    pub fn next(&self, alloc: Global) -> ReverseMap<'_>
        ensures { IsChild self.now result }
    {
        ReverseMap {
            own: IdsByText::new(alloc),
            parents: Parents::Chain(&self.own, &self.parents),
        }
    }

    /// Gives a text to one id more, behind the others that it was given to in this map.
    ///
    /// # Errors
    ///
    /// `NoMemory` where memory is refused. Each text has then the ids that it had.
    pub fn push_entry(&mut self, text: JsWord, id: usize) -> Result<(), NoMemory>
        ensures pushed { OnOk result (IsPushed text id self.old self.new) }
        ensures refused { OnErr result ((x : List ℕ) → ids_of self.new x ≡ ids_of self.old x) }
    {
        self.own.push(text, id)
    }

    /// The ids that a text was given to: the map's own, in order, and then those of the map that it was made from.
    pub fn get<'b>(&'b self, text: &'b str) -> Iter<'b>
        ensures { ids_left result ≡ ids_of self.now text.now }
    {
        Iter {
            text,
            own: self.own.get(text),
            parents: self.parents,
        }
    }
}

/// The ids that a text was given to, each as often as it was.
#[derive(Clone, Copy)]
pub struct Iter<'a> {
    text: &'a str,
    own: &'a [usize],
    parents: Parents<'a>,
}

// The first id that is left, with what is left then of its map and of the parents.
#[tactic(auto, using(crate::proofs::Chains::parents_nobody, crate::proofs::Chains::parents_out))]
fn first_left<'a>(
    text: &str,
    own: &'a [usize],
    parents: &Parents<'a>,
) -> Option<(&'a usize, &'a [usize], Parents<'a>)>
    ensures { MatchOption result (own.now ++ parents_ids parents.now text.now ≡ []) (λ left. own.now ++ parents_ids parents.now text.now ≡ left.0.now ∷ (left.1.now ++ parents_ids left.2 text.now)) }
{
    match own.split_first() {
        Some((first, others)) => Some((first, others, *parents)),
        None => match parents {
            Parents::Nobody => None,
            Parents::Chain(nearest, outer) => first_left(text, nearest.get(text), outer),
        },
    }
}

impl<'a> Iterator for Iter<'a> {
    type Item = &'a usize;

    ghost next_gives = { YieldsFirstRef ids_left };

    ghost remaining = { item_count ids_left };

    fn next(&mut self) -> Option<&'a usize> {
        let (first, own, parents) = first_left(self.text, self.own, &self.parents)?;
        self.own = own;
        self.parents = parents;
        Some(first)
    }
}
