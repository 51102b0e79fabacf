//! Which of some places are those of a tree's nodes.
ghost use Rattle.std.specs.Prelude.{◌<◌, length, IfSome};

use crate::remark::At;
use std::alloc::{AllocError, Global};
use text_pieces::{Frame, Piece};

/// A number for each place, in the order of places.
pub(crate) fn key_of(at: At) -> u64 {
    match at {
        At::Leads(place) => u64::from(place).saturating_mul(2),
        At::Trails(place) => u64::from(place).saturating_mul(2).saturating_add(1),
    }
}

/// Places in their order, how many nodes begin or stop at each, and how many of these have been passed.
#[derive(Drop)]
pub(crate) struct Places {
    keys: Vec<u64>,
    nodes: Vec<usize>,
    passed: Vec<usize>,
    // How many keys are before the one that was looked for last: frames stand in order, and the next is most often near.
    near: usize,
}

fn is_less(keys: &[u64], index: usize, key: u64) -> bool {
    match keys.get(index) {
        Some(each) => *each < key,
        None => false,
    }
}

fn is_key(keys: &[u64], index: usize, key: u64) -> bool {
    match keys.get(index) {
        Some(each) => *each == key,
        None => false,
    }
}

// Whether just so many keys are less than one.
fn is_near(keys: &[u64], near: usize, key: u64) -> bool {
    (near == 0 || is_less(keys, near - 1, key)) && !is_less(keys, near, key)
}

impl Places {
    /// How many places are before one.
    pub(crate) fn count_before(&mut self, key: u64) -> usize {
        if !is_near(&self.keys, self.near, key) {
            self.near = self.keys.partition_point(|each| *each < key);
        }
        self.near
    }

    fn index_of(&mut self, at: At) -> Option<usize>
        ensures nodes { IfSome result (λ index. index < length self.new.nodes.items) }
        ensures passed { IfSome result (λ index. index < length self.new.passed.items) }
    {
        let key = key_of(at);
        let index = self.count_before(key);
        let is_there = is_key(&self.keys, index, key);
        if !is_there || self.nodes.len() <= index || self.passed.len() <= index {
            return None;
        }
        Some(index)
    }

    fn note(&mut self, at: At) {
        if let Some(index) = self.index_of(at) {
            self.nodes[index] = self.nodes[index].saturating_add(1);
        }
    }

    fn note_frame(&mut self, frame: Frame<'_>) {
        match frame {
            Frame::Begins(here) => {
                if let Ok(place) = u32::try_from(here) {
                    self.note(At::Leads(place));
                }
            }
            Frame::Stops(here) => {
                if let Ok(place) = u32::try_from(here) {
                    self.note(At::Trails(place));
                }
            }
            Frame::Named(_, span) => {
                self.note(At::Leads(span.lo));
                self.note(At::Trails(span.hi));
            }
        }
    }

    /// Some places, held against all frames of a tree.
    pub(crate) fn among(
        alloc: Global,
        mut keys: Vec<u64>,
        pieces: &[Piece<'_>],
    ) -> Result<Places, AllocError> {
        keys.sort()?;
        let (mut nodes, mut passed) = (Vec::new(alloc), Vec::new(alloc));
        nodes.resize(keys.len(), 0)?;
        passed.resize(keys.len(), 0)?;
        let mut places = Places {
            keys,
            nodes,
            passed,
            near: 0,
        };
        for piece in pieces {
            if let Piece::Frame(frame) = *piece {
                places.note_frame(frame);
            }
        }
        Ok(places)
    }

    /// Passes a node at a place, and answers whether it is the last there.
    pub(crate) fn pass_last(&mut self, at: At) -> bool {
        match self.index_of(at) {
            Some(index) => {
                self.passed[index] = self.passed[index].saturating_add(1);
                self.passed[index] >= self.nodes[index]
            }
            None => false,
        }
    }
}
