//! Which ids of scopes that leak were given which texts. These count everywhere.
ghost use Rattle.std.specs.Prelude.{◌≡◌, ◌==◌, ◌||◌, ℕ, List, [], true, false, IfOk, OnOk};
ghost use Rattle.std.specs.Ordering.{nat_cmp};
ghost use Rattle.std.specs.BTreeMap.{get_by_text};
ghost use Rattle.std.specs.BTreeSet.{contains};
ghost use Rattle.std.specs.List.{list_any};
ghost use Rattle.swc_base_rename_naming.specs.Chained.{ids_of};
ghost use Rattle.swc_base_rename_naming.specs.Places.{AnyWithin, AreMarked, AreMarkedAlso, NoneWithin};
ghost use Rattle.swc_base_rename_naming.specs.Steps.{HasAlso};
ghost use Rattle.swc_base_rename_naming.specs.Stretches.{is_at};

use crate::asked::Asked;
use crate::reverse_map::ReverseMap;
use std::alloc::{AllocError, Global};
use std::collections::{BTreeMap, BTreeSet};
use swc_tree_marks::{JsWord, NoMemory};

// How many ids of one text are asked one by one whether they occur. So few cost less than to record where they do.
const FEW: usize = 8;

/// The ids of scopes that leak that each text was given to, and the positions of those ids, where many share a text.
///
/// Whether one of them occurs at a scope costs a question to each, where they are few, else the logarithm of how many positions
/// they have: each scope that asks many ids would cost the square of how many they are.
#[derive(Drop)]
pub struct Leaked {
    holders: ReverseMap<'static>,
    places: BTreeMap<String, BTreeSet<usize>>,
}

/// Whether one of the ids that a text was given to occurs at a scope or below it.
pub fn any_occurs<A: Asked>(asked: &A, holders: &ReverseMap<'_>, scope: usize, text: &str) -> bool
    ensures { result ≡ list_any (A.occurs asked.now scope) (ids_of holders.now text.now) }
{
    for id in holders.get(text) {
        if asked.occurs(scope, *id) {
            return true;
        }
    }
    false
}

// Whether one of some places is in a stretch.
fn any_within(places: &BTreeSet<usize>, stretch: (usize, usize)) -> bool
    ensures found { result ≡ true → AnyWithin places.now stretch }
    ensures missing { result ≡ false → NoneWithin places.now stretch }
{
    if stretch.0 >= stretch.1 {
        return false;
    }
    places.range(stretch.0..stretch.1).next().is_some()
}

// Adds positions to places.
fn add_all(positions: &[usize], places: &mut BTreeSet<usize>) -> Result<(), AllocError>
    ensures { OnOk result ((p : ℕ) → contains nat_cmp places.new p ≡ (contains nat_cmp places.old p || list_any (λ q. q == p) positions.now)) }
{
    for position in positions {
        places.insert(*position)?;
    }
    Ok(())
}

// The positions of the ids that a text was given to.
fn places_of<A: Asked>(
    alloc: Global,
    asked: &A,
    holders: &ReverseMap<'_>,
    text: &str,
) -> Result<BTreeSet<usize>, AllocError>
    ensures { IfOk result (λ places. (p : ℕ) → contains nat_cmp places p ≡ list_any (is_at (A.positions asked.now) p) (ids_of holders.now text.now)) }
{
    let mut places = BTreeSet::new(alloc);
    for id in holders.get(text) {
        add_all(asked.positions(*id), &mut places)?;
    }
    Ok(places)
}

impl Leaked {
    /// No text was given to an id.
    pub fn new(alloc: Global) -> Leaked
        ensures holders { (x : List ℕ) → ids_of result.holders x ≡ [] }
        ensures marked { (positions : ℕ → List ℕ) → AreMarked positions result }
    {
        Leaked {
            holders: ReverseMap::new(alloc),
            places: BTreeMap::new(alloc),
        }
    }

    /// Whether one of the ids that a text was given to occurs at a scope or below it.
    pub fn any_occurs<A: Asked>(&self, asked: &A, scope: usize, text: &str) -> bool
        requires { AreMarked (A.positions asked.now) self.now }
        ensures { result ≡ list_any (A.occurs asked.now scope) (ids_of self.now.holders text.now) }
    {
        match self.places.get(text) {
            Some(places) => any_within(places, asked.stretch(scope)),
            None => any_occurs(asked, &self.holders, scope, text),
        }
    }

    // Records the positions of one id more of a text, if many share it.
    fn mark<A: Asked>(
        &mut self,
        alloc: Global,
        asked: &A,
        text: &JsWord,
        id: usize,
    ) -> Result<(), NoMemory>
        requires { AreMarked (A.positions asked.now) self.old }
        ensures holders { self.new.holders ≡ self.old.holders }
        ensures marked { OnOk result (AreMarkedAlso (A.positions asked.now) text.now id self.old self.new) }
    {
        if let Some(places) = self.places.get_mut(text.as_str()) {
            add_all(asked.positions(id), places)?;
            return Ok(());
        }
        if self.holders.get(text.as_str()).nth(FEW).is_none() {
            return Ok(());
        }
        let mut places = places_of(alloc, asked, &self.holders, text.as_str())?;
        add_all(asked.positions(id), &mut places)?;
        let key = String::from_str(alloc, text.as_str())?;
        self.places.insert(key, places)?;
        Ok(())
    }

    /// Gives a text to one id more.
    ///
    /// # Errors
    ///
    /// `NoMemory` where memory is refused.
    pub fn push<A: Asked>(
        &mut self,
        alloc: Global,
        asked: &A,
        text: JsWord,
        id: usize,
    ) -> Result<(), NoMemory>
        requires { AreMarked (A.positions asked.now) self.old }
        ensures pushed { OnOk result (HasAlso true text id self.old.holders self.new.holders) }
        ensures marked { OnOk result (AreMarked (A.positions asked.now) self.new) }
    {
        self.mark(alloc, asked, &text, id)?;
        self.holders.push_entry(text, id)
    }
}
