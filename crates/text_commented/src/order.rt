//! Comments of one place that stand between the same tokens, in their order.
ghost use Rattle.std.specs.Prelude.{◌≡◌, ◌++◌, ◌∷◌, ℕ, [], List, false, map, IfOk, IsTrue, OnOk, if◌then◌else◌};
ghost use Rattle.std.specs.List.{Contains, list_any};
ghost use Rattle.text_commented.specs.Commented.{ComesBefore, KeepsOrder};
ghost use Rattle.text_commented.specs.Places as spec;
ghost use Rattle.text_commented.specs.Steps.{Covers, GoesBehind, merged, placed_view};
ghost use Rattle.text_pieces.specs.Tokens.{piece_view};

use crate::lines::is_token;
use crate::remark::{At, Placed, Remark, remark_at, same_place, stands_at};
use std::alloc::{AllocError, Global};
use text_pieces::Piece;

fn are_apart(one: At, other: At) -> bool
    ensures { IsTrue result → ¬ (one ≡ other) }
{
    if same_place(one, other) {
        return false;
    }
    true
}

// Whether a comment is given before another, if both stand at one place.
fn comes_before(remarks: &[Remark<'_>], one: usize, other: usize) -> bool
    ensures { IsTrue result → ComesBefore remarks.now one other }
{
    if one < other {
        return true;
    }
    match (remark_at(remarks, one), remark_at(remarks, other)) {
        (Some(remark), Some(another)) => are_apart(remark.at, another.at),
        _ => false,
    }
}

// Whether some comments are given before another, if they stand where it does.
fn come_before(remarks: &[Remark<'_>], near: &[usize], number: usize) -> bool
    ensures { IsTrue result → (m : ℕ) → Contains near.now m → ComesBefore remarks.now m number }
{
    'near: for i in 0..near.len() {
        if !comes_before(remarks, near[i], number) {
            return false;
        }
    }
    true
}

// Whether a comment is given behind another, and stands where that does.
fn goes_behind(remarks: &[Remark<'_>], one: usize, other: usize) -> bool
    ensures { IsTrue result → GoesBehind remarks.now one other }
{
    if other < one {
        return false;
    }
    match remark_at(remarks, one) {
        Some(remark) => stands_at(remarks, other, remark.at),
        None => false,
    }
}

// Puts the last of some comments back, unless one that is added goes behind it.
fn put_back(
    remarks: &[Remark<'_>],
    near: &mut Vec<usize>,
    last: usize,
    number: usize,
) -> Result<(), AllocError>
    ensures { OnOk result ((those : List ℕ) → Covers remarks.now (near.old.items ++ last ∷ []) those → Covers remarks.now (near.new.items ++ number ∷ []) (number ∷ those)) }
{
    if goes_behind(remarks, last, number) {
        return Ok(());
    }
    near.push(last)?;
    Ok(())
}

// Takes the last of some comments away, if one that is added goes behind it.
fn make_room(remarks: &[Remark<'_>], near: &mut Vec<usize>, number: usize) -> Result<(), AllocError>
    ensures { OnOk result ((those : List ℕ) → Covers remarks.now near.old.items those → Covers remarks.now (near.new.items ++ number ∷ []) (number ∷ those)) }
{
    match near.pop() {
        Some(last) => put_back(remarks, near, last, number),
        None => Ok(()),
    }
}

// Adds a comment to those behind the last token, of which the last of each row at one place are kept.
fn add_near(remarks: &[Remark<'_>], near: &mut Vec<usize>, number: usize) -> Result<(), AllocError>
    ensures { OnOk result ((those : List ℕ) → Covers remarks.now near.old.items those → Covers remarks.now near.new.items (number ∷ those)) }
{
    make_room(remarks, near, number)?;
    near.push(number)?;
    Ok(())
}

// Whether a token is among pieces.
fn has_token(pieces: &[Piece<'_>]) -> bool
    ensures { result ≡ list_any spec.is_token (map piece_view pieces.now) }
{
    'pieces: for i in 0..pieces.len() {
        if is_token(pieces[i]) {
            return true;
        }
    }
    false
}

// Goes behind pieces: behind a token none of the comments before it is near.
fn pass(near: &mut Vec<usize>, pieces: &[Piece<'_>])
    ensures { near.new.items ≡ (if list_any spec.is_token (map piece_view pieces.now) then [] else near.old.items) }
{
    if has_token(pieces) {
        near.clear();
    }
}

/// Whether comments of one place that are put between the same tokens are put in their order.
pub(crate) fn keeps_order(
    alloc: Global,
    remarks: &[Remark<'_>],
    pieces: &[Piece<'_>],
    placed: &[Placed],
) -> Result<bool, AllocError>
    ensures { IfOk result (λ so. IsTrue so → KeepsOrder remarks.now [] (merged 0 (map piece_view pieces.now) (map placed_view placed.now))) }
{
    let mut near = Vec::new(alloc);
    let mut at = 0;
    'placed: for i in 0..placed.len() {
        let before = placed[i].before;
        if before < at || pieces.len() < before {
            return Ok(false);
        }
        pass(&mut near, &pieces[at..before]);
        if !come_before(remarks, &near, placed[i].number) {
            return Ok(false);
        }
        add_near(remarks, &mut near, placed[i].number)?;
        at = before;
    }
    Ok(true)
}
