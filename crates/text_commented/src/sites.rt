//! Where the nodes of a tree begin and stop.
ghost use Rattle.std.specs.Prelude.{◌≡◌, ◌↔◌, ◌++◌, [], List, map, ℕ, ◌≤◌, IfOk, IsTrue, MatchOption, OnOk, if◌then◌else◌};
ghost use Rattle.std.specs.List.{Contains};
ghost use Rattle.std.specs.List.Sorted.{IsNonDecreasing, IsPermutation};
ghost use Rattle.text_commented.specs.Places.{all_places, places as places_of, places_at, tight_places};
ghost use Rattle.text_commented.specs.Sites.{IsFirst, IsFirstBegun, IsLast, IsLastBegun, IsLastStop, IsSites, leads_in, trails_in};
ghost use Rattle.text_commented.specs.declared.remark.At.{At};
ghost use Rattle.text_pieces.specs.Tokens.{frame_view, piece_view};

use crate::lines::{line_behind, may_end_line};
use crate::remark::At;
use std::alloc::{AllocError, Global};
use swc_tree_marks::BytePos;
use text_pieces::{Frame, Piece};

/// Where nodes begin, and where they stop.
#[derive(Drop)]
pub(crate) struct Sites {
    begun: Vec<usize>,
    stopped: Vec<usize>,
}

/// The same numbers in order.
pub(crate) fn ordered(mut places: Vec<usize>) -> Result<Vec<usize>, AllocError>
    ensures same { IfOk result (λ sorted. IsPermutation places.items sorted.items) }
    ensures rise { IfOk result (λ sorted. IsNonDecreasing sorted.items) }
{
    places.sort()?;
    Ok(places)
}

fn is_listed(sorted: &[usize], place: usize) -> bool
    ensures { IsNonDecreasing sorted.now → (IsTrue result ↔ Contains sorted.now place) }
{
    sorted.binary_search(&place).is_ok()
}

// The last that is no greater than a number.
fn last_of(sorted: &[usize], limit: usize) -> Option<usize>
    ensures { IsNonDecreasing sorted.now → MatchOption result ((m : ℕ) → m ≤ limit → ¬ Contains sorted.now m) (IsLast sorted.now limit) }
{
    match sorted.binary_search(&limit) {
        Ok(_) => Some(limit),
        Err(place) => {
            if place == 0 {
                return None;
            }
            Some(sorted[place - 1])
        }
    }
}

// The first that is no smaller than a number.
fn first_of(sorted: &[usize], limit: usize) -> Option<usize>
    ensures { IsNonDecreasing sorted.now → MatchOption result ((m : ℕ) → limit ≤ m → ¬ Contains sorted.now m) (IsFirst sorted.now limit) }
{
    match sorted.binary_search(&limit) {
        Ok(_) => Some(limit),
        Err(place) => {
            if place >= sorted.len() {
                return None;
            }
            Some(sorted[place])
        }
    }
}

impl Sites {
    fn new(alloc: Global) -> Sites
        ensures begun { result.begun.items ≡ [] }
        ensures stopped { result.stopped.items ≡ [] }
    {
        Sites {
            begun: Vec::new(alloc),
            stopped: Vec::new(alloc),
        }
    }

    #[tactic(auto, using(crate::proofs::Listed::nothing_added))]
    fn add_frame(&mut self, frame: Frame<'_>) -> Result<(), AllocError>
        ensures begun { OnOk result (self.new.begun.items ≡ self.old.begun.items ++ leads_in (places_at (frame_view frame.entry))) }
        ensures stopped { OnOk result (self.new.stopped.items ≡ self.old.stopped.items ++ trails_in (places_at (frame_view frame.entry))) }
    {
        match frame {
            Frame::Begins(here) => {
                self.begun.push(here)?;
                Ok(())
            }
            Frame::Stops(here) => {
                self.stopped.push(here)?;
                Ok(())
            }
            Frame::Named(_, span) => {
                self.begun.push(span.lo as usize)?;
                self.stopped.push(span.hi as usize)?;
                Ok(())
            }
        }
    }

    #[tactic(auto, using(crate::proofs::Listed::nothing_added))]
    fn add_behind(&mut self, piece: Piece<'_>) -> Result<(), AllocError>
        ensures begun { OnOk result (self.new.begun.items ≡ self.old.begun.items ++ leads_in (places_of (piece_view piece.entry))) }
        ensures stopped { OnOk result (self.new.stopped.items ≡ self.old.stopped.items ++ trails_in (places_of (piece_view piece.entry))) }
    {
        match piece {
            Piece::Frame(frame) => self.add_frame(frame),
            _ => Ok(()),
        }
    }

    // Adds the places behind a piece, unless they are passed over.
    #[tactic(auto, using(crate::proofs::Listed::nothing_added))]
    fn add(&mut self, over: bool, piece: Piece<'_>) -> Result<(), AllocError>
        ensures begun { OnOk result (self.new.begun.items ≡ self.old.begun.items ++ leads_in (if over then [] else places_of (piece_view piece.entry))) }
        ensures stopped { OnOk result (self.new.stopped.items ≡ self.old.stopped.items ++ trails_in (if over then [] else places_of (piece_view piece.entry))) }
    {
        if over {
            return Ok(());
        }
        self.add_behind(piece)
    }

    fn ordered(self) -> Result<Sites, AllocError>
        ensures { (all : List At) → self.begun.items ≡ leads_in all → self.stopped.items ≡ trails_in all → IfOk result (λ sites. IsSites sites all) }
    {
        let Sites { begun, stopped } = self;
        let begun = ordered(begun)?;
        let stopped = ordered(stopped)?;
        Ok(Sites { begun, stopped })
    }

    /// Whether a node begins or stops at a place.
    pub(crate) fn has(&self, place: At) -> bool
        ensures { (all : List At) → IsSites self.now all → (IsTrue result ↔ Contains all place) }
    {
        match place {
            At::Leads(here) => is_listed(&self.begun, here as usize),
            At::Trails(here) => is_listed(&self.stopped, here as usize),
        }
    }

    /// Where the last node stops that does so at a place or before; those that stand nowhere, as passes make them, have 0.
    pub(crate) fn last_stop(&self, limit: BytePos) -> Option<BytePos>
        ensures { (all : List At) → IsSites self.now all → MatchOption result ((n : ℕ) → ¬ IsLastStop all limit n) (IsLastStop all limit) }
    {
        let Some(place) = last_of(&self.stopped, limit as usize) else {
            return None;
        };
        if place == 0 {
            return None;
        }
        if place > u32::MAX as usize {
            return None;
        }
        Some(place as u32)
    }

    /// Where the last node begins that does so at a place or before.
    pub(crate) fn last_begun(&self, limit: BytePos) -> Option<BytePos>
        ensures { (all : List At) → IsSites self.now all → MatchOption result ((n : ℕ) → ¬ IsLastBegun all limit n) (IsLastBegun all limit) }
    {
        let Some(place) = last_of(&self.begun, limit as usize) else {
            return None;
        };
        if place == 0 {
            return None;
        }
        if place > u32::MAX as usize {
            return None;
        }
        Some(place as u32)
    }

    /// Where the first node begins that does so at a place or behind.
    pub(crate) fn first_begun(&self, limit: BytePos) -> Option<BytePos>
        ensures { (all : List At) → IsSites self.now all → MatchOption result ((n : ℕ) → ¬ IsFirstBegun all limit n) (IsFirstBegun all limit) }
    {
        let Some(place) = first_of(&self.begun, limit as usize) else {
            return None;
        };
        if place > u32::MAX as usize {
            return None;
        }
        Some(place as u32)
    }
}

/// The places behind pieces: all of them, and those between tokens between which no line may end.
#[derive(Drop)]
pub(crate) struct BothSites {
    pub(crate) all: Sites,
    pub(crate) tight: Sites,
}

/// The places behind pieces.
pub(crate) fn sites_of(alloc: Global, pieces: &[Piece<'_>]) -> Result<BothSites, AllocError>
    ensures all { IfOk result (λ both. IsSites both.all (all_places (map piece_view pieces.now))) }
    ensures tight { IfOk result (λ both. IsSites both.tight (tight_places (map piece_view pieces.now))) }
{
    let mut all = Sites::new(alloc);
    let mut tight = Sites::new(alloc);
    let mut line = may_end_line(pieces);
    'pieces: for i in 0..pieces.len() {
        line = line_behind(line, pieces[i], &pieces[i + 1..]);
        all.add(false, pieces[i])?;
        tight.add(line, pieces[i])?;
    }
    let all = all.ordered()?;
    let tight = tight.ordered()?;
    Ok(BothSites { all, tight })
}
