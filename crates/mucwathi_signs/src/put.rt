//! Signs put into a text, and taken out of it.
ghost use Rattle.std.specs.Prelude.{◌≡◌, ◌≤◌, ◌++◌, [], length, IfOk, OnOk};
ghost use Rattle.mucwathi_signs.specs.Blanked.{IsBlanked, is_between, is_covered};
ghost use Rattle.mucwathi_signs.specs.Signed.{IsPut, IsSigned, more_marks, sign_text};

use crate::find::Found;
use crate::sign::Sign;
use std::alloc::{AllocError, Global};

// Adds the marks behind the first.
fn add_more(alloc: Global, marks: &[u32], out: &mut Vec<u8>) -> Result<(), AllocError>
    ensures { OnOk result (out.new.items ≡ out.old.items ++ more_marks marks.now) }
{
    for mark in marks {
        let number = *mark;
        let text = format!(in alloc; ".{number}")?;
        out.extend_from_slice(text.as_bytes())?;
    }
    Ok(())
}

// Adds what is written for marks.
pub(crate) fn add_sign(alloc: Global, marks: &[u32], out: &mut Vec<u8>) -> Result<(), AllocError>
    ensures { OnOk result (out.new.items ≡ out.old.items ++ sign_text marks.now) }
{
    let [first, more @ ..] = marks else {
        return Ok(());
    };
    let number = *first;
    let text = format!(in alloc; "#{number}")?;
    out.extend_from_slice(text.as_bytes())?;
    add_more(alloc, more, out)
}

// The nearest place to one between two others.
fn near(at: usize, low: usize, high: usize) -> usize
    requires { low ≤ high }
    ensures low { low ≤ result }
    ensures high { result ≤ high }
    ensures same { low ≤ at → at ≤ high → result ≡ at }
{
    at.min(high).max(low)
}

// Adds what is before a sign, from a place on, and the sign; tells the place behind.
fn put_sign(
    alloc: Global,
    text: &[u8],
    from: usize,
    sign: &Sign,
    out: &mut Vec<u8>,
) -> Result<usize, AllocError>
    requires { from ≤ length text.now }
    ensures { IfOk result (IsPut text.now from sign.now out.old.items out.new.items) }
{
    let to = near(sign.at, from, text.len());
    out.extend_from_slice(&text[from..to])?;
    add_sign(alloc, sign.marks.as_slice(), out)?;
    Ok(to)
}

/// A text with signs in their places, the first of which comes first.
pub fn put_signs(alloc: Global, text: &[u8], signs: &[Sign]) -> Result<Vec<u8>, AllocError>
    ensures { IfOk result (λ out. IsSigned 0 signs.now text.now out.items) }
{
    let mut out = Vec::new(alloc);
    let mut from = 0;
    for sign in signs {
        from = put_sign(alloc, text, from, sign, &mut out)?;
    }
    out.extend_from_slice(&text[from..])?;
    Ok(out)
}

// Puts blanks into the place of bytes, as far as there are some.
fn blank(text: &mut [u8], from: usize, to: usize)
    ensures { IsBlanked (is_between from to) text.old text.new }
{
    let end = to.min(text.len());
    'bytes: for i in from..end {
        text[i] = b' ';
    }
}

/// A text with blanks in the place of signs that were found in it, so that all else stays where it is.
pub fn blank_signs(alloc: Global, text: &[u8], signs: &[Found]) -> Result<Vec<u8>, AllocError>
    ensures { IfOk result (λ out. IsBlanked (is_covered signs.now) text.now out.items) }
{
    let mut out = Vec::from_slice(alloc, text)?;
    for sign in signs {
        blank(out.as_mut_slice(), sign.from, sign.to);
    }
    Ok(out)
}
