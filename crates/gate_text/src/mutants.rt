//! Rows of texts in which one byte is another.
use crate::print::print_tree;
use crate::words::Asked;
use std::alloc::Global;
use std::fmt::Write;
use text_printer::Layout;
use text_source::read_text;

// The bytes that are put in.
const BYTES: &[u8] = b"(){}[];,.:?!=<>+-*/%&|^~'\"`\\$#@_ a0n\n\r\xff";

// The next of pseudorandom numbers, by a congruence.
fn next(number: u32) -> u32 {
    number.wrapping_mul(1_664_525).wrapping_add(1_013_904_223)
}

// One below a bound that is not 0, by a number.
fn below(number: u32, bound: usize) -> usize {
    let high = usize::try_from(number >> 8).unwrap_or(0);
    high.checked_rem(bound).unwrap_or(0)
}

// Whether a text is answered, and printed where it is read.
fn is_served(alloc: Global, asked: Asked, text: &[u8]) -> bool {
    match read_text(alloc, asked.goal, asked.depth, text) {
        Ok(tree) => print_tree(alloc, asked, Layout::Compact, &tree).is_some(),
        Err(_) => true,
    }
}

// A text with another byte at a place.
fn mutant(alloc: Global, text: &[u8], index: usize, byte: u8) -> Option<Vec<u8>> {
    let mut changed = Vec::new(alloc);
    changed.extend_from_slice(text).ok()?;
    if let Some(place) = changed.get_mut(index) {
        *place = byte;
    }
    Some(changed)
}

/// Whether so many texts, each but for a byte the text, are answered, and printed and read again where they are read.
pub(crate) fn mutants(alloc: Global, asked: Asked, count: u32, text: &[u8]) -> Option<String> {
    let mut number = 1;
    for turn in 0..count {
        number = next(number);
        let index = below(number, text.len());
        number = next(number);
        let byte = BYTES.get(below(number, BYTES.len())).copied().unwrap_or(0);
        let changed = mutant(alloc, text, index, byte)?;
        if !is_served(alloc, asked, changed.as_slice()) {
            return format!(in alloc; "{turn} is not printed: {byte} at {index}").ok();
        }
    }
    format!(in alloc; "{count} answered").ok()
}
