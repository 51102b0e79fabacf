//! The line of a place, and a caret under it.
ghost use Rattle.std.specs.Prelude.{◌≡◌, ◌≢◌, ◌≤◌, ◌<◌, ◌+◌, ◌++◌, ℕ, IsFalse, OnOk, get_or, length};
ghost use Rattle.mucwathi_looks.specs.Excerpts.{AddsExcerpt, begins, blank_for, blanks};

use std::alloc::AllocError;

fn byte_at(text: &[u8], index: usize) -> u8
    ensures { result ≡ get_or text.now index 0 }
{
    text.get(index).copied().unwrap_or(0)
}

// Whether a line ends with the byte at an index (ECMA-262, 12.3).
fn ends_line(text: &[u8], i: usize) -> bool
    ensures { IsFalse result → get_or text.now i 0 ≢ 10 }
{
    let byte = byte_at(text, i);
    byte == 10
        || byte == 13 && byte_at(text, i.saturating_add(1)) != 10
        || (byte == 168 || byte == 169)
            && byte_at(text, i.saturating_sub(1)) == 128
            && byte_at(text, i.saturating_sub(2)) == 226
}

fn begins_character(byte: u8) -> bool
    ensures { result ≡ begins byte }
{
    byte < 128 || 191 < byte
}

// At most so many bytes of a line are shown before a place, and behind it.
const WIDTH: usize = 72;

// Where what is shown of the line begins.
fn shown_from(text: &[u8], at: usize) -> usize
    requires { at ≤ length text.now }
    ensures low { result ≤ at }
    ensures near { at ≤ result + 72 }
    ensures line { (i : ℕ) → result ≤ i → i < at → get_or text.now i 0 ≢ 10 }
{
    let mut from = at;
    'bytes: for k in 0..at.min(WIDTH) {
        let i = at - 1 - k;
        if ends_line(text, i) {
            return from;
        }
        if begins_character(text[i]) {
            from = i;
        }
    }
    from
}

fn is_line_end(text: &[u8], i: usize) -> bool
    ensures { IsFalse result → get_or text.now i 0 ≢ 10 }
{
    match byte_at(text, i) {
        10 | 13 => true,
        226 => {
            byte_at(text, i.saturating_add(1)) == 128
                && matches!(byte_at(text, i.saturating_add(2)), 168 | 169)
        }
        _ => false,
    }
}

// Where it ends.
fn shown_to(text: &[u8], at: usize) -> usize
    requires { at ≤ length text.now }
    ensures low { at ≤ result }
    ensures high { result ≤ length text.now }
    ensures near { result ≤ at + 72 }
    ensures line { (i : ℕ) → at ≤ i → i < result → get_or text.now i 0 ≢ 10 }
{
    let end = at.saturating_add(WIDTH).min(text.len());
    let mut to = at;
    'bytes: for i in at..end {
        if is_line_end(text, i) {
            return i;
        }
        let next = i + 1;
        if next == text.len() || begins_character(byte_at(text, next)) {
            to = next;
        }
    }
    to
}

// Adds a blank for what begins a character, and a tab for a tab.
fn add_blank(byte: u8, out: &mut Vec<u8>) -> Result<(), AllocError>
    ensures { OnOk result (out.new.items ≡ out.old.items ++ blank_for byte) }
{
    if byte == b'\t' {
        out.push(b'\t')?;
        return Ok(());
    }
    if begins_character(byte) {
        out.push(b' ')?;
    }
    Ok(())
}

// A blank for each character, so that what follows stands under the next.
fn indent(part: &[u8], out: &mut Vec<u8>) -> Result<(), AllocError>
    ensures { OnOk result (out.new.items ≡ out.old.items ++ blanks part.now) }
{
    'bytes: for i in 0..part.len() {
        add_blank(part[i], out)?;
    }
    Ok(())
}

/// Adds the line of a place in a text, as far as it is short, and one with a caret under the place.
pub(crate) fn add_excerpt(text: &[u8], at: usize, out: &mut Vec<u8>) -> Result<(), AllocError>
    ensures { OnOk result (AddsExcerpt text.now at out.old.items out.new.items) }
{
    let at = at.min(text.len());
    let from = shown_from(text, at);
    let to = shown_to(text, at);
    let before = &text[from..at];
    out.extend_from_slice(b"    ")?;
    out.extend_from_slice(&text[from..to])?;
    out.extend_from_slice(b"\n    ")?;
    indent(before, out)?;
    out.extend_from_slice(b"^\n")?;
    Ok(())
}
