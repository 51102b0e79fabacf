//! A text edited step by step.
ghost use Rattle.std.specs.Prelude.{◌≡◌, [], ◌++◌, ◌||◌, true, map, drop, length, IfOk, IfSome, OnOk};
ghost use Rattle.std.specs.Option.{option_copied};
ghost use Rattle.text_edit.specs.Edits as spec;
ghost use Rattle.text_edit.specs.Edits.{Allowed, IsEditedBySteps, Stays};
ghost use Rattle.text_edit.specs.Moves.{Advances, Extends};
ghost use Rattle.text_edit.specs.declared.align.Step.TheVariants.{Both, Insert, Remove};
ghost use Rattle.text_follow.specs.Endings.{ending_behind as spec_ending_behind};
ghost use Rattle.text_follow.specs.Follows.{Takes, fresh_behind as spec_fresh_behind};
ghost use Rattle.text_lexer.specs.Names.{up_to as front_of};
ghost use Rattle.text_pieces.specs.Tokens.{piece_view};

use crate::align::{Step, due_behind, next_step};
use crate::alike::{new_name, split_first};
use crate::edge::{Edge, keep, left_of, put};
use crate::fault::EditFault;
use crate::guess::{Change, comes_here};
use std::alloc::{AllocError, Global};
use text_characters::{first, past_byte};
use text_follow::{ending_behind, fresh_behind, take};
use text_lexer::{Comments, Goal, skip_blank, token_at};
use text_pieces::{Ending, Piece};

/// The front of a text up to what is left of it.
fn up_to<'t>(text: &'t [u8], rest: &[u8]) -> &'t [u8]
    ensures { result.now ≡ front_of text.now rest.now }
{
    &text[..text.len().saturating_sub(rest.len())]
}

/// What is left behind the blanks that a text begins with.
fn behind_blanks(comments: Comments, fresh: bool, text: &[u8]) -> &[u8]
    ensures { result.now ≡ spec.behind_blanks comments fresh text.now }
{
    match skip_blank(comments, fresh, text) {
        Some((_, next)) => next,
        None => text,
    }
}

/// A piece's name, and what stands behind it.
fn from_name(comments: Comments, fresh: bool, text: &[u8]) -> &[u8]
    ensures { result.now ≡ spec.from_name comments fresh text.now }
{
    let next = behind_blanks(comments, fresh, text);
    if first(next) == b'(' {
        behind_blanks(comments, false, past_byte(next))
    } else {
        next
    }
}

fn behind_token(text: &[u8]) -> &[u8]
    ensures { result.now ≡ spec.behind_token text.now }
{
    match token_at(Goal::Div, text) {
        Ok((_, rest)) => rest,
        Err(_) => text,
    }
}

/// Puts what an old piece is written with behind a text, with another name in it where it has one.
fn stand(
    comments: Comments,
    fresh: bool,
    name: Option<&str>,
    text: &[u8],
    rest: &[u8],
    out: &mut Vec<u8>,
) -> Result<(), AllocError>
    ensures { OnOk result (out.new.items ≡ out.old.items ++ spec.stands comments fresh (option_copied name.entry) text.now rest.now) }
{
    match name {
        None => out.extend_from_slice(up_to(text, rest))?,
        Some(name) => {
            let old = from_name(comments, fresh, text);
            out.extend_from_slice(up_to(text, old))?;
            out.extend_from_slice(name.as_bytes())?;
            out.extend_from_slice(up_to(behind_token(old), rest))?;
        }
    }
    Ok(())
}

/// Where an old text is read on.
#[derive(Clone, Copy)]
pub(crate) struct Place<'t> {
    /// What is left of it.
    pub(crate) rest: &'t [u8],
    /// Nothing stands before.
    pub(crate) fresh: bool,
    /// How what stands before ends.
    pub(crate) ending: Ending,
    /// The last step was a change, behind which no token stands yet.
    pub(crate) changed: bool,
    pub(crate) edge: Edge,
}

/// The same place with another edge.
fn with_edge<'t>(place: Place<'t>, edge: Edge) -> Place<'t>
    ensures rest { result.rest.now ≡ place.entry.rest.now }
    ensures fresh { result.fresh ≡ place.entry.fresh }
    ensures ending { result.ending ≡ place.entry.ending }
    ensures changed { result.changed ≡ place.entry.changed }
{
    Place {
        rest: place.rest,
        fresh: place.fresh,
        ending: place.ending,
        changed: place.changed,
        edge,
    }
}

/// The blanks that are left before the next token.
fn blanks_at<'t>(comments: Comments, place: Place<'t>) -> &'t [u8] {
    up_to(place.rest, behind_blanks(comments, place.fresh, place.rest))
}

/// The place behind an old piece, if it stands there.
fn behind_piece<'t>(
    comments: Comments,
    place: Place<'t>,
    piece: Piece<'_>,
    changes: bool,
) -> Option<Place<'t>>
    ensures takes { IfSome result (λ next. Takes comments true place.entry.fresh place.entry.ending (piece_view piece.entry) place.entry.rest.now next.rest.now) }
    ensures fresh { IfSome result (λ next. next.fresh ≡ spec_fresh_behind place.entry.fresh (piece_view piece.entry)) }
    ensures ending { IfSome result (λ next. next.ending ≡ spec_ending_behind place.entry.ending (piece_view piece.entry)) }
    ensures changed { IfSome result (λ next. next.changed ≡ (changes || spec.still_changed place.entry.changed place.entry.rest.now next.rest.now)) }
{
    let rest = take(comments, true, place.fresh, place.ending, place.rest, piece)?;
    Some(Place {
        rest,
        fresh: fresh_behind(place.fresh, piece),
        ending: ending_behind(place.ending, piece),
        changed: changes || place.changed && rest.len() == place.rest.len(),
        edge: place.edge,
    })
}

/// What is left of the pieces, and of the old text.
#[derive(Clone, Copy)]
pub(crate) struct Cursor<'p, 'a, 't> {
    /// The old pieces that are left.
    pub(crate) olds: &'p [Piece<'a>],
    /// The new ones.
    pub(crate) news: &'p [Piece<'a>],
    pub(crate) place: Place<'t>,
}

/// Puts an old piece behind a text, as it stands up to `rest`; right behind a change with blanks by need.
fn write_piece(
    alloc: Global,
    comments: Comments,
    place: Place<'_>,
    rest: &[u8],
    name: Option<&str>,
    out: &mut Vec<u8>,
) -> Result<(), AllocError>
    ensures extends { OnOk result (Extends out.old.items out.new.items) }
    ensures stays { OnOk result (Stays place.entry.changed (spec.stands comments place.entry.fresh (option_copied name.entry) place.entry.rest.now rest.now) (drop (length out.old.items) out.new.items)) }
{
    if !place.changed {
        return stand(comments, place.fresh, name, place.rest, rest, out);
    }
    let mut stands = Vec::new(alloc);
    stand(comments, place.fresh, name, place.rest, rest, &mut stands)?;
    let blanks = blanks_at(comments, place);
    let new = keep(alloc, comments, place.edge, out.as_slice(), blanks, &stands)?;
    out.extend_from_slice(&new)?;
    Ok(())
}

/// Puts a text behind another.
fn append(out: &mut Vec<u8>, text: &[u8]) -> Result<(), AllocError>
    ensures { OnOk result (Extends out.old.items out.new.items) }
{
    out.extend_from_slice(text)?;
    Ok(())
}

/// An old piece stays, maybe with another name.
fn keep_piece<'p, 'a, 't>(
    alloc: Global,
    comments: Comments,
    cursor: Cursor<'p, 'a, 't>,
    out: &mut Vec<u8>,
) -> Result<Cursor<'p, 'a, 't>, EditFault>
    requires { Allowed Both (map piece_view cursor.olds.now) (map piece_view cursor.news.now) }
    ensures { IfOk result (λ next. Advances comments cursor.entry out.old.items next out.new.items) }
{
    let Some((old, olds)) = split_first(cursor.olds) else {
        return Err(EditFault::NotTheText);
    };
    let Some((new, news)) = split_first(cursor.news) else {
        return Err(EditFault::NotTheText);
    };
    let place = cursor.place;
    let Some(next) = behind_piece(comments, place, old, false) else {
        return Err(EditFault::OtherText);
    };
    write_piece(alloc, comments, place, next.rest, new_name(old, new), out)?;
    let edge = place.edge.behind(old, next.rest.len() == place.rest.len());
    Ok(Cursor {
        olds,
        news,
        place: with_edge(next, edge),
    })
}

/// A new piece is put there.
fn put_piece<'p, 'a, 't>(
    alloc: Global,
    comments: Comments,
    cursor: Cursor<'p, 'a, 't>,
    out: &mut Vec<u8>,
) -> Result<Cursor<'p, 'a, 't>, EditFault>
    requires { Allowed Insert (map piece_view cursor.olds.now) (map piece_view cursor.news.now) }
    ensures { IfOk result (λ next. Advances comments cursor.entry out.old.items next out.new.items) }
{
    let Some((piece, news)) = split_first(cursor.news) else {
        return Err(EditFault::NotTheText);
    };
    let place = cursor.place;
    let blanks = blanks_at(comments, place);
    let (edge, new) = put(alloc, comments, place.edge, out.as_slice(), blanks, piece)?;
    append(out, &new)?;
    Ok(Cursor {
        olds: cursor.olds,
        news,
        place: Place {
            rest: place.rest,
            fresh: place.fresh,
            ending: place.ending,
            changed: true,
            edge,
        },
    })
}

/// An old piece is taken away.
fn remove_piece<'p, 'a, 't>(
    alloc: Global,
    comments: Comments,
    cursor: Cursor<'p, 'a, 't>,
    out: &mut Vec<u8>,
) -> Result<Cursor<'p, 'a, 't>, EditFault>
    requires { Allowed Remove (map piece_view cursor.olds.now) (map piece_view cursor.news.now) }
    ensures { IfOk result (λ next. Advances comments cursor.entry out.old.items next out.new.items) }
{
    let Some((piece, olds)) = split_first(cursor.olds) else {
        return Err(EditFault::NotTheText);
    };
    let place = cursor.place;
    let Some(next) = behind_piece(comments, place, piece, true) else {
        return Err(EditFault::OtherText);
    };
    let stood = up_to(place.rest, next.rest);
    let edge = place.edge.before(comes_here(cursor.news));
    let blanks = blanks_at(comments, place);
    let left = left_of(alloc, comments, edge, out.as_slice(), blanks, stood)?;
    append(out, &left)?;
    Ok(Cursor {
        olds,
        news: cursor.news,
        place: with_edge(next, place.edge.behind_removed(comments, stood, &left)),
    })
}

/// Makes a step.
fn advance<'p, 'a, 't>(
    alloc: Global,
    comments: Comments,
    step: Step,
    cursor: Cursor<'p, 'a, 't>,
    out: &mut Vec<u8>,
) -> Result<Cursor<'p, 'a, 't>, EditFault>
    requires { Allowed step (map piece_view cursor.olds.now) (map piece_view cursor.news.now) }
    ensures { IfOk result (λ next. Advances comments cursor.entry out.old.items next out.new.items) }
{
    match step {
        Step::Both => keep_piece(alloc, comments, cursor, out),
        Step::Insert => put_piece(alloc, comments, cursor, out),
        Step::Remove => remove_piece(alloc, comments, cursor, out),
    }
}

/// Makes the next step, if there is one, and tells what of a change is due behind it.
#[tactic(auto, using(crate::proofs::Steps::stays_put))]
fn go_on<'p, 'a, 't>(
    alloc: Global,
    comments: Comments,
    due: Change,
    cursor: Cursor<'p, 'a, 't>,
    out: &mut Vec<u8>,
) -> Result<(Change, Cursor<'p, 'a, 't>), EditFault>
    ensures { IfOk result (λ next. Advances comments cursor.entry out.old.items next.1 out.new.items) }
{
    if cursor.olds.is_empty() && cursor.news.is_empty() {
        return Ok((due, cursor));
    }
    let (change, step) = next_step(due, cursor.olds, cursor.news);
    let next = advance(alloc, comments, step, cursor, out)?;
    Ok((due_behind(change, step), next))
}

/// Puts what is left of the old text behind the others, if no piece is left.
#[tactic(auto, using(crate::proofs::Pieces::no_pieces))]
fn finish(cursor: Cursor<'_, '_, '_>, out: &mut Vec<u8>) -> Result<(), EditFault>
    ensures olds { OnOk result (map piece_view cursor.entry.olds.now ≡ []) }
    ensures news { OnOk result (map piece_view cursor.entry.news.now ≡ []) }
    ensures rest { OnOk result (out.new.items ≡ out.old.items ++ cursor.entry.place.rest.now) }
{
    if !cursor.olds.is_empty() || !cursor.news.is_empty() {
        return Err(EditFault::NotTheText);
    }
    out.extend_from_slice(cursor.place.rest)?;
    Ok(())
}

/// The text with what changes from the old pieces to the new.
#[tactic(auto, using(crate::proofs::Steps::start_leads))]
pub(crate) fn apply<'p, 'a>(
    alloc: Global,
    comments: Comments,
    text: &[u8],
    before: &'p [Piece<'a>],
    after: &'p [Piece<'a>],
) -> Result<Vec<u8>, EditFault>
    ensures { IfOk result (λ out. IsEditedBySteps comments (map piece_view before.now) (map piece_view after.now) text.now out.items) }
{
    let mut out = Vec::new(alloc);
    let mut cursor = Cursor {
        olds: before,
        news: after,
        place: Place {
            rest: text,
            fresh: true,
            ending: Ending::Closed,
            changed: false,
            edge: Edge::settled(),
        },
    };
    let mut due = Change::none();
    'pieces: for turn in 0..before.len().saturating_add(after.len()) {
        let (left, next) = go_on(alloc, comments, due, cursor, &mut out)?;
        due = left;
        cursor = next;
    }
    finish(cursor, &mut out)?;
    Ok(out)
}
