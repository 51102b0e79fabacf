//! At which of the nodes round it a comment of a text stands.
ghost use Rattle.std.specs.Prelude.{◌≡◌, ◌↔◌, ◌+◌, ℕ, List, map, IfOk, IsTrue, MatchOption, if◌then◌else◌};
ghost use Rattle.std.specs.List.{Contains};
ghost use Rattle.text_comments.specs.Lines as line_specs;
ghost use Rattle.text_commented.specs.Chosen as spec;
ghost use Rattle.text_commented.specs.Chosen.{AreChosen, BeginsBehind, ClosesBehind, IsAlone, IsChosen, IsFound, IsNearest, StopsBefore};
ghost use Rattle.text_commented.specs.Commented.{part as part_by, written};
ghost use Rattle.text_commented.specs.Places.{all_places, tight_places};
ghost use Rattle.text_commented.specs.Sites.{IsFirstBegun, IsLastStop, IsSites};
ghost use Rattle.text_commented.specs.declared.remark.At.{At};
ghost use Rattle.text_commented.specs.declared.remark.At.TheVariants as stand;
ghost use Rattle.text_pieces.specs.Pieces.{framed_pieces as pieces_of};
ghost use Rattle.text_pieces.specs.Tokens as tokens;
ghost use Rattle.text_pieces.specs.Tokens.{piece_view};

use crate::remark::{At, Remark};
use crate::sites::{BothSites, Sites, sites_of};
use std::alloc::{AllocError, Global};
use swc_tree_marks::BytePos;
use swc_tree_node::Node;
use text_comments::{Comment, ends_line, has_line_end};
use text_pieces::Piece;
use text_walk::framed_pieces;

// What stands in a text from one place to another; places are in bytes from 1.
fn part(text: &[u8], from: BytePos, to: BytePos) -> &[u8]
    ensures { result.now ≡ part_by text.now from to }
{
    let (from, to) = (from as usize, to as usize);
    let behind = text.get(from.saturating_sub(1)..).unwrap_or(&[]);
    behind.get(..to.saturating_sub(from)).unwrap_or(behind)
}

/// A comment of a text, as it is written there.
pub(crate) fn text_of(text: &[u8], comment: Comment) -> &[u8]
    ensures { result.now ≡ written text.now comment }
{
    part(text, comment.span.lo, comment.span.hi)
}

// Whether a line ends between a comment and the token before it, or the beginning of the text.
fn begins_line(text: &[u8], comment: Comment) -> bool
    ensures { result ≡ spec.begins_line text.now comment }
{
    let between = part(text, comment.trails.max(1), comment.span.lo);
    has_line_end(between)
}

// Whether a node stops with the token before a comment.
fn stops_before(comment: Comment, sites: &Sites) -> bool
    ensures { (all : List At) → IsSites sites.now all → (IsTrue result ↔ StopsBefore all comment) }
{
    if comment.trails == 0 {
        return false;
    }
    sites.has(At::Trails(comment.trails))
}

// Whether a node begins with the token behind a comment.
fn begins_behind(comment: Comment, sites: &Sites) -> bool
    ensures { (all : List At) → IsSites sites.now all → (IsTrue result ↔ BeginsBehind all comment) }
{
    sites.has(At::Leads(comment.leads))
}

// Where a node stops behind the byte that is behind a comment, if one does.
fn closed_behind(comment: Comment, sites: &Sites) -> Option<BytePos>
    ensures { (all : List At) → IsSites sites.now all → MatchOption result (¬ ClosesBehind all comment) (λ place. (place ≡ comment.leads + 1) × ClosesBehind all comment) }
{
    let Some(place) = comment.leads.checked_add(1) else {
        return None;
    };
    if sites.has(At::Trails(place)) {
        Some(place)
    } else {
        None
    }
}

// Of a node that stops before a comment and one that begins behind it the nearer one.
fn nearer(comment: Comment, stopped: BytePos, begun: BytePos) -> At
    ensures { (all : List At) → IsLastStop all comment.trails stopped → IsFirstBegun all comment.leads begun → IsNearest all comment result }
{
    if comment.trails.saturating_sub(stopped) <= begun.saturating_sub(comment.leads) {
        At::Trails(stopped)
    } else {
        At::Leads(begun)
    }
}

fn nearest(comment: Comment, sites: &Sites) -> Option<At>
    ensures { (all : List At) → IsSites sites.now all → MatchOption result ((a : At) → ¬ IsNearest all comment a) (IsNearest all comment) }
{
    match (
        sites.last_stop(comment.trails),
        sites.first_begun(comment.leads),
    ) {
        (Some(stopped), Some(begun)) => Some(nearer(comment, stopped, begun)),
        (Some(stopped), None) => Some(At::Trails(stopped)),
        (None, Some(begun)) => Some(At::Leads(begun)),
        (None, None) => None,
    }
}

// Where a comment stands that no node stops or begins beside.
fn found_apart(comment: Comment, sites: &Sites) -> Option<At>
    ensures { (text : List ℕ) (all : List At) → IsSites sites.now all → IsAlone all comment → MatchOption result ((a : At) → ¬ IsFound text all comment a) (IsFound text all comment) }
{
    match closed_behind(comment, sites) {
        Some(place) => Some(At::Trails(place)),
        None => nearest(comment, sites),
    }
}

// Where a comment stands that a node stops and one begins beside.
fn found_between(text: &[u8], comment: Comment) -> At
    ensures { result ≡ (if spec.begins_line text.now comment then stand.Leads comment.leads else stand.Trails comment.trails) }
{
    if begins_line(text, comment) {
        At::Leads(comment.leads)
    } else {
        At::Trails(comment.trails)
    }
}

// Where a comment stands, if a line may end there.
fn found_at(text: &[u8], comment: Comment, sites: &Sites) -> Option<At>
    ensures { (all : List At) → IsSites sites.now all → MatchOption result ((a : At) → ¬ IsFound text.now all comment a) (IsFound text.now all comment) }
{
    match (stops_before(comment, sites), begins_behind(comment, sites)) {
        (true, true) => Some(found_between(text, comment)),
        (true, false) => Some(At::Trails(comment.trails)),
        (false, true) => Some(At::Leads(comment.leads)),
        (false, false) => found_apart(comment, sites),
    }
}

// Whether a comment ends a line at a place where none may end.
fn is_caught(text: &[u8], place: At, tight: &Sites) -> bool
    ensures { (all : List At) → IsSites tight.now all → (IsTrue result ↔ (IsTrue (line_specs.ends_line text.now) × Contains all place)) }
{
    if !ends_line(text) {
        return false;
    }
    tight.has(place)
}

fn place_of(text: &[u8], comment: Comment, both: &BothSites) -> At
    ensures { (ps : List tokens.Piece) → IsSites both.now.all (all_places ps) → IsSites both.now.tight (tight_places ps) → IsChosen text.now (all_places ps) (tight_places ps) comment result }
{
    let Some(found) = found_at(text, comment, &both.all) else {
        return At::Leads(comment.leads);
    };
    if !is_caught(text_of(text, comment), found, &both.tight) {
        return found;
    }
    match both.all.last_begun(comment.trails) {
        Some(place) => At::Leads(place),
        None => At::Leads(comment.leads),
    }
}

fn remarks_by<'t>(
    alloc: Global,
    text: &'t [u8],
    comments: &[Comment],
    both: &BothSites,
) -> Result<Vec<Remark<'t>>, AllocError>
    ensures { IfOk result (λ remarks. (ps : List tokens.Piece) → IsSites both.now.all (all_places ps) → IsSites both.now.tight (tight_places ps) → AreChosen text.now ps comments.now remarks.items) }
{
    let mut remarks = Vec::new(alloc);
    'comments: for i in 0..comments.len() {
        remarks.push(Remark {
            text: text_of(text, comments[i]),
            at: place_of(text, comments[i], both),
        })?;
    }
    Ok(remarks)
}

/// The comments of a text as they are to be written among the pieces of a tree.
pub(crate) fn remarks_among<'t>(
    alloc: Global,
    text: &'t [u8],
    pieces: &[Piece<'_>],
    comments: &[Comment],
) -> Result<Vec<Remark<'t>>, AllocError>
    ensures { IfOk result (λ remarks. AreChosen text.now (map piece_view pieces.now) comments.now remarks.items) }
{
    let sites = sites_of(alloc, pieces)?;
    let remarks = remarks_by(alloc, text, comments, &sites)?;
    Ok(remarks)
}

/// The comments of a text as they are to be written; `tree` is that of the text, or what passes made of it. A comment in the line of
/// what stands before it trails that, and leads what stands behind it else, where a node stops or begins there. Where neither does, it
/// stands behind what closes right behind it, as in `{ /* none */ }`, else at the nearest that stops before it or begins behind it;
/// where no line may end there, and it ends one, before the last node that begins before it, as before `return ( // why`.
///
/// # Errors
///
/// Where memory is refused.
pub fn remarks_of<'t>(
    alloc: Global,
    text: &'t [u8],
    tree: &Node,
    comments: &[Comment],
) -> Result<Vec<Remark<'t>>, AllocError>
    ensures { IfOk result (λ remarks. AreChosen text.now (pieces_of tree.now) comments.now remarks.items) }
{
    let found = framed_pieces(alloc, tree)?;
    let pieces = found.as_slice();
    let remarks = remarks_among(alloc, text, pieces, comments)?;
    Ok(remarks)
}
