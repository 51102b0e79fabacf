//! Places at which comments are put, and behind how many pieces.
ghost use Rattle.std.specs.BTreeMap.{get};
ghost use Rattle.std.specs.List.{Contains};
ghost use Rattle.std.specs.List.Sorted.{IsNonDecreasing};
ghost use Rattle.std.specs.Ordering.{nat_cmp};
ghost use Rattle.std.specs.Prelude.{◌≡◌, ◌-◌, ◌<◌, ℕ, Some, slice_get, IfOk, IsTrue};
ghost use Rattle.text_commented.specs.Steps.{AreListed, IsReady, Notes};

use crate::sites::ordered;
use std::alloc::{AllocError, Global};
use std::collections::BTreeMap;

/// Places, each with how many pieces are before the comments there.
#[derive(Drop)]
pub(crate) struct Noted {
    pub(crate) behind: BTreeMap<usize, usize>,
    // The same places in order, and how many are before the one that was looked for last: pieces stand in order, and the next is most often near.
    pub(crate) listed: Vec<usize>,
    near: usize,
}

// Whether no place before so many is another's, or behind it.
fn is_behind(listed: &[usize], near: usize, place: usize) -> bool
    ensures { IsTrue result → 0 < near → (x : ℕ) × (slice_get listed.now (near - 1) ≡ Some x) × (x < place) }
{
    if near == 0 {
        return true;
    }
    match listed.get(near - 1) {
        Some(last) => *last < place,
        None => false,
    }
}

// Whether no place behind so many is another's, or before it.
fn is_before(listed: &[usize], near: usize, place: usize) -> bool
    ensures { IsTrue result → (x : ℕ) → slice_get listed.now near ≡ Some x → place < x }
{
    match listed.get(near) {
        Some(next) => place < *next,
        None => true,
    }
}

// Whether a place is none of some in order, of which just so many are before it.
fn is_far(listed: &[usize], near: usize, place: usize) -> bool
    ensures { IsNonDecreasing listed.now → IsTrue result → ¬ Contains listed.now place }
{
    if !is_behind(listed, near, place) {
        return false;
    }
    is_before(listed, near, place)
}

impl Noted {
    pub(crate) fn new(alloc: Global) -> Noted
        ensures { AreListed result }
    {
        Noted {
            behind: BTreeMap::new(alloc),
            listed: Vec::new(alloc),
            near: 0,
        }
    }

    /// Notes that a comment is put at a place; whether each other there is put behind as many pieces.
    pub(crate) fn note(&mut self, place: usize, before: usize) -> Result<bool, AllocError>
        ensures { IfOk result (λ so. IsTrue so → Notes self.old self.new place before) }
    {
        let known = self.behind.get(&place).copied();
        match known {
            Some(other) => Ok(other == before),
            None => {
                self.listed.push(place)?;
                self.behind.insert(place, before)?;
                Ok(true)
            }
        }
    }

    /// The same, to be looked at.
    pub(crate) fn ready(self) -> Result<Noted, AllocError>
        requires { AreListed self }
        ensures ready { IfOk result IsReady }
        ensures same { IfOk result (λ noted. noted.behind ≡ self.behind) }
    {
        let Noted {
            behind,
            listed,
            near,
        } = self;
        let listed = ordered(listed)?;
        Ok(Noted {
            behind,
            listed,
            near,
        })
    }

    /// How many pieces are before the comments at a place.
    pub(crate) fn look(&mut self, place: usize) -> Option<usize>
        requires { IsReady self.old }
        ensures value { result ≡ get nat_cmp self.old.behind place }
        ensures behind { self.new.behind ≡ self.old.behind }
        ensures listed { self.new.listed ≡ self.old.listed }
    {
        if is_far(self.listed.as_slice(), self.near, place) {
            return None;
        }
        self.near = self.listed.partition_point(|each| *each < place);
        self.behind.get(&place).copied()
    }
}
