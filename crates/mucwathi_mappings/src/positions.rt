//! Lines and columns as source maps have them: both from 0, columns in units of UTF-16.
ghost use Rattle.std.specs.Prelude.{◌≡◌, ◌+◌, ◌<◌, ◌≤◌, All, IfOk, OnOk, length, min, slice_index};
ghost use Rattle.text_places.specs.Places as places;
ghost use Rattle.mucwathi_mappings.specs.Positions as spec;
ghost use Rattle.mucwathi_mappings.specs.Positions.{IsMark, IsPosition};

use std::alloc::{AllocError, Global};

/// A line and a column, both from 0.
#[derive(Clone, Copy, Debug)]
pub struct Position {
    pub line: usize,
    pub column: usize,
}

fn byte_at(text: &[u8], index: usize) -> u8
    ensures { result ≡ slice_index text.now index }
{
    text.get(index).copied().unwrap_or(0)
}

// Whether a line ends with the byte at an index (ECMA-262, 12.3).
fn ends_line(text: &[u8], i: usize) -> bool
    ensures { result ≡ places.ends_line text.now i }
{
    let byte = byte_at(text, i);
    byte == 10
        || byte == 13 && byte_at(text, i.saturating_add(1)) != 10
        || (byte == 168 || byte == 169)
            && byte_at(text, i.saturating_sub(1)) == 128
            && byte_at(text, i.saturating_sub(2)) == 226
}

fn begins_character(byte: u8) -> bool
    ensures { result ≡ places.begins_character byte }
{
    byte < 128 || 191 < byte
}

// Whether a byte stands for a unit of UTF-16: the first of a character, and the second of one past U+FFFF.
fn is_unit(text: &[u8], i: usize) -> bool
    ensures { result ≡ spec.is_unit text.now i }
{
    begins_character(byte_at(text, i)) || 239 < byte_at(text, i.saturating_sub(1))
}

// The position behind one byte more.
#[tactic(auto, using(crate::proofs::Steps::line_ended, crate::proofs::Steps::line_goes_on, crate::proofs::Steps::column_ended, crate::proofs::Steps::column_counts, crate::proofs::Steps::column_goes_on))]
fn step(text: &[u8], at: usize, position: Position) -> Position
    requires here { IsPosition text.now at position }
    requires below { at < length text.now }
    ensures { IsPosition text.now (at + 1) result }
{
    let Position { line, column } = position;
    if ends_line(text, at) {
        Position {
            line: line + 1,
            column: 0,
        }
    } else if is_unit(text, at) {
        Position {
            line,
            column: column + 1,
        }
    } else {
        Position { line, column }
    }
}

// The position behind some bytes more.
fn walk(text: &[u8], from: usize, to: usize, position: Position) -> Position
    requires here { IsPosition text.now from position }
    requires low { from ≤ to }
    requires high { to ≤ length text.now }
    ensures { IsPosition text.now to result }
{
    let mut there = position;
    for at in from..to {
        there = step(text, at, there);
    }
    there
}

/// A place in a text, and its position.
#[derive(Clone, Copy, Debug)]
pub(crate) struct Mark {
    at: usize,
    position: Position,
}

const START: Position = Position { line: 0, column: 0 };

const FIRST: Mark = Mark {
    at: 0,
    position: START,
};

// How far marks are from one another.
const STRIDE: usize = 64;

// Adds a mark at every so many bytes.
fn add_mark(
    text: &[u8],
    at: usize,
    position: Position,
    marks: &mut Vec<Mark>,
) -> Result<(), AllocError>
    requires within { at ≤ length text.now }
    requires placed { IsPosition text.now at position }
    requires before { All (IsMark text.now) marks.old.items }
    ensures { OnOk result (All (IsMark text.now) marks.new.items) }
{
    if at % STRIDE == 0 {
        marks.push(Mark { at, position })?;
    }
    Ok(())
}

/// Marks in a text, one after another: from the nearest each position is found in few steps.
pub(crate) fn marks_of(alloc: Global, text: &[u8]) -> Result<Vec<Mark>, AllocError>
    ensures { IfOk result (λ marks. All (IsMark text.now) marks.items) }
{
    let mut marks = Vec::new(alloc);
    let mut position = START;
    for at in 0..text.len() {
        add_mark(text, at, position, &mut marks)?;
        position = step(text, at, position);
    }
    Ok(marks)
}

// The nearest mark before a place.
fn mark_before(text: &[u8], marks: &[Mark], end: usize) -> Mark
    requires { All (IsMark text.now) marks.now }
    ensures is { IsMark text.now result }
    ensures low { result.at ≤ end }
{
    match marks.get(end / STRIDE) {
        Some(mark) => { if mark.at <= end { *mark } else { FIRST } }
        None => FIRST,
    }
}

/// The position of what stands behind so many bytes of a text; more bytes than it has are its end.
pub(crate) fn position_at(text: &[u8], marks: &[Mark], at: usize) -> Position
    requires { All (IsMark text.now) marks.now }
    ensures { IsPosition text.now (min at (length text.now)) result }
{
    let end = at.min(text.len());
    let mark = mark_before(text, marks, end);
    walk(text, mark.at, end, mark.position)
}
