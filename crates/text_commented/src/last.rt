//! Comments that trail, each behind the last node that stops there.
ghost use Rattle.std.specs.List.{All};
ghost use Rattle.std.specs.Prelude.{◌≡◌, ℕ, Some, map, slice_get, IfOk, IfSome, IsTrue};
ghost use Rattle.text_commented.specs.Commented.{AreLast};
ghost use Rattle.text_commented.specs.Places.{places_at};
ghost use Rattle.text_commented.specs.Steps.{AreStopped, IsNoted, IsReady, NotesOf, StopsBefore, StopsIn, merged, placed_view};
ghost use Rattle.text_pieces.specs.Tokens as tokens;
ghost use Rattle.text_pieces.specs.Tokens.{frame_view, piece_view};

use crate::noted::Noted;
use crate::remark::{At, Placed, Remark, remark_at};
use std::alloc::{AllocError, Global};
use text_pieces::{Frame, Piece};

// Notes behind how many pieces a comment is put, if it trails.
fn note(noted: &mut Noted, remarks: &[Remark<'_>], each: Placed) -> Result<bool, AllocError>
    ensures { IfOk result (λ so. IsTrue so → NotesOf remarks.now noted.old noted.new (placed_view each)) }
{
    let Some(remark) = remark_at(remarks, each.number) else {
        return Ok(false);
    };
    match remark.at {
        At::Leads(_) => Ok(true),
        At::Trails(place) => noted.note(place as usize, each.before),
    }
}

// Behind how many pieces those are put that trail; nothing if some trail at one place and are put apart.
fn noted_of(
    alloc: Global,
    remarks: &[Remark<'_>],
    placed: &[Placed],
) -> Result<Option<Noted>, AllocError>
    ensures { IfOk result (λ found. IfSome found (λ noted. IsReady noted × All (IsNoted remarks.now noted.behind) (map placed_view placed.now))) }
{
    let mut noted = Noted::new(alloc);
    'placed: for i in 0..placed.len() {
        let is_noted = note(&mut noted, remarks, placed[i])?;
        if !is_noted {
            return Ok(None);
        }
    }
    let ready = noted.ready()?;
    Ok(Some(ready))
}

// Whether a node that stops at a place, so many pieces from the first, does so before the comments that trail there.
fn stops_before(noted: &mut Noted, place: usize, number: usize) -> bool
    requires { IsReady noted.old }
    ensures stops { IsTrue result → StopsBefore noted.old.behind number place }
    ensures behind { noted.new.behind ≡ noted.old.behind }
    ensures listed { noted.new.listed ≡ noted.old.listed }
{
    match noted.look(place) {
        Some(before) => number < before,
        None => true,
    }
}

fn frame_stops(noted: &mut Noted, frame: Frame<'_>, number: usize) -> bool
    requires { IsReady noted.old }
    ensures stops { IsTrue result → StopsIn noted.old.behind number (places_at (frame_view frame.entry)) }
    ensures behind { noted.new.behind ≡ noted.old.behind }
    ensures listed { noted.new.listed ≡ noted.old.listed }
{
    match frame {
        Frame::Begins(_) => true,
        Frame::Stops(here) => stops_before(noted, here, number),
        Frame::Named(_, span) => stops_before(noted, span.hi as usize, number),
    }
}

// The same of a piece, if one stops behind it.
fn piece_stops(noted: &mut Noted, piece: Piece<'_>, number: usize) -> bool
    requires { IsReady noted.old }
    ensures stops { IsTrue result → AreStopped noted.old.behind number (piece_view piece.entry) }
    ensures behind { noted.new.behind ≡ noted.old.behind }
    ensures listed { noted.new.listed ≡ noted.old.listed }
{
    match piece {
        Piece::Frame(frame) => frame_stops(noted, frame, number),
        _ => true,
    }
}

// The same of all pieces.
fn pieces_stop(noted: &mut Noted, pieces: &[Piece<'_>]) -> bool
    requires { IsReady noted.old }
    ensures { IsTrue result → (n : ℕ) (p : tokens.Piece) → slice_get (map piece_view pieces.now) n ≡ Some p → AreStopped noted.old.behind n p }
{
    'pieces: for i in 0..pieces.len() {
        if !piece_stops(noted, pieces[i], i) {
            return false;
        }
    }
    true
}

/// Whether behind each comment that trails no node stops there.
pub(crate) fn are_last(
    alloc: Global,
    remarks: &[Remark<'_>],
    pieces: &[Piece<'_>],
    placed: &[Placed],
) -> Result<bool, AllocError>
    ensures { IfOk result (λ so. IsTrue so → AreLast remarks.now (merged 0 (map piece_view pieces.now) (map placed_view placed.now))) }
{
    let found = noted_of(alloc, remarks, placed)?;
    let Some(mut noted) = found else {
        return Ok(false);
    };
    Ok(pieces_stop(&mut noted, pieces))
}
