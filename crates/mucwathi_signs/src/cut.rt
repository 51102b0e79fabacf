//! Signs cut out of a text.
ghost use Rattle.std.specs.Prelude.{IfOk, IsTrue};
ghost use Rattle.mucwathi_signs.specs.Signed.{IsMarked};
ghost use Rattle.mucwathi_signs.specs.Cut.{IsCutTo, IsWrittenAt};

use crate::find::Found;
use crate::put::add_sign;
use crate::sign::Sign;
use std::alloc::{AllocError, Global};

/// A text without signs that stood in it, and these signs, each with its place in what is left.
#[derive(Debug, Drop)]
pub struct Cut {
    pub text: Vec<u8>,
    pub signs: Vec<Sign>,
}

/// Whether a text has just what is written for marks from one place to another.
pub(crate) fn is_written(
    alloc: Global,
    text: &[u8],
    from: usize,
    to: usize,
    marks: &[u32],
) -> Result<bool, AllocError>
    ensures { IfOk result (λ b. IsTrue b → IsWrittenAt text.now from to marks.now) }
{
    let Some(part) = text.get(from..to) else {
        return Ok(false);
    };
    let mut written = Vec::new(alloc);
    add_sign(alloc, marks, &mut written)?;
    let same = part == written.as_slice();
    Ok(same)
}

// Adds what is before a sign, from a place on, and notes the sign; tells the place behind. What is not written as its marks stays.
fn cut_sign(
    alloc: Global,
    text: &[u8],
    from: usize,
    found: Found,
    cut: &mut Cut,
) -> Result<usize, AllocError>
    requires { IsCutTo text.now from cut.old }
    ensures { IfOk result (λ to. IsCutTo text.now to cut.new) }
{
    let Found {
        from: begin,
        to: end,
        marks,
    } = found;
    if begin < from {
        return Ok(from);
    }
    let is_sign = is_written(alloc, text, begin, end, marks.as_slice())?;
    if !is_sign {
        return Ok(from);
    }
    cut.text.extend_from_slice(&text[from..begin])?;
    let at = cut.text.as_slice().len();
    cut.signs.push(Sign { at, marks })?;
    Ok(end)
}

/// A text without signs that were found in it, and these: with them written into what is left it is the text.
pub fn cut_signs(alloc: Global, text: &[u8], found: Vec<Found>) -> Result<Cut, AllocError>
    ensures { IfOk result (λ cut. IsMarked 0 cut.signs.items cut.text.items text.now) }
{
    let left = Vec::new(alloc);
    let signs = Vec::new(alloc);
    let mut cut = Cut { text: left, signs };
    let mut from = 0;
    for sign in found {
        from = cut_sign(alloc, text, from, sign, &mut cut)?;
    }
    cut.text.extend_from_slice(&text[from..])?;
    Ok(cut)
}
