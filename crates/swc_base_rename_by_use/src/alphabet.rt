//! The characters of short texts, those that are met most first.

use crate::characters::{Characters, place_of_character};
use std::alloc::Global;
use swc_tree_marks::NoMemory;

// How many characters a text has at most.
const LONGEST: usize = 11;

/// The places of characters in an order: of those with which a text begins, and of all.
#[derive(Drop)]
pub struct Alphabet {
    first: Vec<usize>,
    all: Vec<usize>,
}

// The places from 0 on and below an end, those first whose characters are met most.
fn by_count(alloc: Global, met: &Characters, end: usize) -> Result<Vec<usize>, NoMemory> {
    let mut order = Vec::new(alloc);
    for place in 0..end {
        let count = match met.counts.get(place) {
            Some(count) => *count,
            None => 0,
        };
        order.push((usize::MAX - count, place))?;
    }
    order.sort()?;
    let mut places = Vec::new(alloc);
    for entry in order.as_slice() {
        places.push(entry.1)?;
    }
    Ok(places)
}

fn at(places: &[usize], index: usize) -> u128 {
    match places.get(index) {
        Some(place) => *place as u128,
        None => 0,
    }
}

// The place of a longer text in the list of all texts, by that of its beginning and that of its last character.
fn longer(beginning: u128, last: u128) -> u128 {
    beginning
        .wrapping_mul(64)
        .wrapping_add(54)
        .wrapping_add(last)
}

impl Alphabet {
    /// The order of the characters that were met.
    ///
    /// # Errors
    ///
    /// `NoMemory` where memory is refused.
    pub fn new(alloc: Global, met: &Characters) -> Result<Alphabet, NoMemory> {
        Ok(Alphabet {
            first: by_count(alloc, met, 54)?,
            all: by_count(alloc, met, 64)?,
        })
    }

    /// The place in the list of all texts of the one that has that number in this order: the shortest come first, and of those of one length
    /// the first character changes from one to the next, which serves a compressor.
    pub fn place(&self, number: usize) -> u128 {
        let mut place = at(self.first.as_slice(), number % 54);
        let mut left = number / 54;
        for _ in 1..LONGEST {
            if left == 0 {
                return place;
            }
            place = longer(place, at(self.all.as_slice(), (left - 1) % 64));
            left = (left - 1) / 64;
        }
        place
    }
}

/// The place of a text in the list of all texts, if it is one of them.
pub fn place_of_text(text: &str) -> Option<u128> {
    let [first, others @ ..] = text.as_bytes() else {
        return None;
    };
    if others.len() >= LONGEST {
        return None;
    }
    let mut place = place_of_character(*first)? as u128;
    if place >= 54 {
        return None;
    }
    for character in others {
        place = longer(place, place_of_character(*character)? as u128);
    }
    Some(place)
}
