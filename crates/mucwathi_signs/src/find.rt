//! Signs found in a text.
ghost use Rattle.std.specs.Prelude.{IfOk, OnOk};
ghost use Rattle.mucwathi_signs.specs.Cut.{AreWritten};

use crate::cut::is_written;
use std::alloc::{AllocError, Global};

/// What looks like a sign in a text: where it begins and ends, and its marks, the oldest first.
#[derive(Debug, Drop)]
pub struct Found {
    pub from: usize,
    pub to: usize,
    pub marks: Vec<u32>,
}

fn byte_at(text: &[u8], i: usize) -> u8 {
    text.get(i).copied().unwrap_or(0)
}

fn is_digit(byte: u8) -> bool {
    matches!(byte, b'0'..=b'9')
}

// Whether a name may go on with a byte; those of characters beyond ASCII count, too.
fn may_be_named(byte: u8) -> bool {
    matches!(byte, b'a'..=b'z' | b'A'..=b'Z' | b'0'..=b'9' | b'_' | b'$' | b'\\' | 128..=255)
}

// Whether a name may end before a place: with `}` where its last character is escaped.
fn may_end_name(text: &[u8], at: usize) -> bool {
    if at == 0 {
        return false;
    }
    let last = byte_at(text, at.saturating_sub(1));
    may_be_named(last) || last == b'}'
}

// The number whose digits begin at a place, and the place behind them; none where the first is 0 or no mark is so great.
fn number_at(text: &[u8], from: usize) -> Option<(u32, usize)> {
    if byte_at(text, from) == b'0' {
        return None;
    }
    let mut number = 0u32;
    for i in from..text.len() {
        let byte = byte_at(text, i);
        if !is_digit(byte) {
            return if number > 0 { Some((number, i)) } else { None };
        }
        number = number
            .checked_mul(10)?
            .checked_add(u32::from(byte.saturating_sub(b'0')))?;
    }
    if number > 0 {
        Some((number, text.len()))
    } else {
        None
    }
}

// The marks whose first digits begin at a place, with points between, and the place behind them.
fn marks_at(
    alloc: Global,
    text: &[u8],
    from: usize,
) -> Result<Option<(Vec<u32>, usize)>, AllocError> {
    let mut marks = Vec::new(alloc);
    let mut at = from;
    for _ in from..text.len() {
        let Some((mark, end)) = number_at(text, at) else {
            return Ok(None);
        };
        marks.push(mark)?;
        let next = end.saturating_add(1);
        if byte_at(text, end) != b'.' || !is_digit(byte_at(text, next)) {
            return Ok(Some((marks, end)));
        }
        at = next;
    }
    Ok(None)
}

// The sign that begins at a place, if one does.
fn sign_at(alloc: Global, text: &[u8], from: usize) -> Result<Option<Found>, AllocError> {
    if byte_at(text, from) != b'#' || !may_end_name(text, from) {
        return Ok(None);
    }
    let Some((marks, to)) = marks_at(alloc, text, from.saturating_add(1))? else {
        return Ok(None);
    };
    if may_be_named(byte_at(text, to)) {
        return Ok(None);
    }
    Ok(Some(Found { from, to, marks }))
}

// Adds a sign, if it is written in the text as its marks are.
fn add_written(
    alloc: Global,
    text: &[u8],
    sign: Found,
    found: &mut Vec<Found>,
) -> Result<(), AllocError>
    requires { AreWritten text.now found.old.items }
    ensures { OnOk result (AreWritten text.now found.new.items) }
{
    if is_written(alloc, text, sign.from, sign.to, sign.marks.as_slice())? {
        found.push(sign)?;
    }
    Ok(())
}

// Adds the sign that begins at a place, if one does.
fn add_sign_at(
    alloc: Global,
    text: &[u8],
    from: usize,
    found: &mut Vec<Found>,
) -> Result<(), AllocError>
    requires { AreWritten text.now found.old.items }
    ensures { OnOk result (AreWritten text.now found.new.items) }
{
    match sign_at(alloc, text, from)? {
        Some(sign) => add_written(alloc, text, sign, found),
        None => Ok(()),
    }
}

/// What looks like a sign in a text, one after another: `#`, digits, and more digits behind points, right behind what may be a name. Each is
/// written there as its marks are.
///
/// It may stand in a string or a comment: who has read the text knows.
pub fn find_signs(alloc: Global, text: &[u8]) -> Result<Vec<Found>, AllocError>
    ensures { IfOk result (λ found. AreWritten text.now found.items) }
{
    let mut found = Vec::new(alloc);
    for i in 0..text.len() {
        add_sign_at(alloc, text, i, &mut found)?;
    }
    Ok(found)
}
