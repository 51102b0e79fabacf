//! The comments of a text, found between the tokens of its tree.
ghost use Rattle.std.specs.Prelude.{◌≡◌, ◌≤◌, ◌<◌, ◌-◌, ◌+◌, ◌^◌, ◌++◌, true, false, length, map, IfOk, OnOk};
ghost use Rattle.text_comments.specs.Comments as spec;
ghost use Rattle.text_comments.specs.Comments.{HasComments};
ghost use Rattle.text_pieces.specs.Pieces.{pieces as pieces_of};
ghost use Rattle.text_pieces.specs.Tokens.{piece_view};

use crate::comment::{Comment, CommentsFault};
use std::alloc::{AllocError, Global};
use swc_tree_marks::{BytePos, Span};
use swc_tree_node::Node;
use text_characters::{begins_line_end, is_space, point};
use text_follow::{ending_behind, fresh_behind, goal_of, take};
use text_lexer::{Comments, Goal, Skip, skip_blank, skip_piece, token_at};
use text_pieces::{Ending, Piece};
use text_walk::pieces;

/// Where what is left of a text begins.
fn position(whole: &[u8], rest: &[u8]) -> BytePos
    requires { length whole.now < 2 ^ 32 - 1 }
    ensures { result ≡ spec.position whole.now rest.now }
{
    1 + whole.len().saturating_sub(rest.len()) as u32
}

/// Whether what is skipped at the front of a text is a comment, and no white space and no line end.
pub fn is_comment(text: &[u8]) -> bool
    ensures { result ≡ spec.is_comment text.now }
{
    !begins_line_end(text) && !is_space(point(text))
}

/// A text, and which comments it may have.
#[derive(Clone, Copy)]
pub struct Source<'t> {
    pub comments: Comments,
    pub whole: &'t [u8],
}

/// The tokens that blanks stand between.
#[derive(Clone, Copy)]
struct Between {
    trails: BytePos,
    leads: BytePos,
}

/// Adds what has been skipped, if it is a comment.
fn add_skipped(
    whole: &[u8],
    between: Between,
    text: &[u8],
    rest: &[u8],
    found: &mut Vec<Comment>,
) -> Result<(), AllocError>
    requires { length whole.now < 2 ^ 32 - 1 }
    ensures { OnOk result (found.new.items ≡ found.old.items ++ spec.skipped whole.now between.trails between.leads text.now rest.now) }
{
    if !is_comment(text) {
        return Ok(());
    }
    let (lo, hi) = (position(whole, text), position(whole, rest));
    found.push(Comment {
        span: Span { lo, hi },
        trails: between.trails,
        leads: between.leads,
    })?;
    Ok(())
}

/// Adds the comments that a text begins with.
fn add_among(
    source: Source<'_>,
    between: Between,
    fresh: bool,
    text: &[u8],
    found: &mut Vec<Comment>,
) -> Result<(), AllocError>
    requires { length source.whole.now < 2 ^ 32 - 1 }
    ensures { OnOk result (found.new.items ≡ found.old.items ++ spec.among (length text.now) source.entry.comments source.entry.whole.now between.trails between.leads fresh text.now) }
{
    let mut ended = fresh;
    let mut rest = text;
    'blanks: for turn in 0..text.len() {
        match skip_piece(source.comments, ended, rest) {
            Skip::Stop => return Ok(()),
            Skip::Unclosed => return Ok(()),
            Skip::Past(now_ended, behind) => {
                add_skipped(source.whole, between, rest, behind, found)?;
                ended = now_ended;
                rest = behind;
            }
        }
    }
    Ok(())
}

/// What is left behind the blanks that a text begins with.
fn behind_blanks(comments: Comments, fresh: bool, text: &[u8]) -> &[u8]
    ensures { result.now ≡ spec.behind_blanks comments fresh text.now }
{
    match skip_blank(comments, fresh, text) {
        Some((_, next)) => next,
        None => text,
    }
}

fn end_before(whole: &[u8], fresh: bool, text: &[u8]) -> BytePos
    requires { length whole.now < 2 ^ 32 - 1 }
    ensures { result ≡ spec.end_before whole.now fresh text.now }
{
    if fresh { 0 } else { position(whole, text) }
}

/// Adds the comments before the next token.
///
/// # Errors
///
/// Where memory is refused.
pub fn add_before_token(
    source: Source<'_>,
    fresh: bool,
    text: &[u8],
    found: &mut Vec<Comment>,
) -> Result<(), AllocError>
    requires { length source.whole.now < 2 ^ 32 - 1 }
    ensures { OnOk result (found.new.items ≡ found.old.items ++ spec.before_token source.entry.comments source.entry.whole.now fresh text.now) }
{
    let next = behind_blanks(source.comments, fresh, text);
    let trails = end_before(source.whole, fresh, text);
    let leads = position(source.whole, next);
    let between = Between { trails, leads };
    add_among(source, between, fresh, text, found)?;
    Ok(())
}

fn behind_token(comments: Comments, goal: Goal, fresh: bool, text: &[u8]) -> &[u8]
    ensures { result.now ≡ spec.behind_token comments goal fresh text.now }
{
    let next = behind_blanks(comments, fresh, text);
    match token_at(goal, next) {
        Ok((_, rest)) => rest,
        Err(_) => next,
    }
}

/// Adds the comments before the tokens of a piece.
///
/// # Errors
///
/// Where memory is refused.
pub fn add_before_tokens(
    source: Source<'_>,
    goal: Goal,
    fresh: bool,
    text: &[u8],
    rest: &[u8],
    found: &mut Vec<Comment>,
) -> Result<(), AllocError>
    requires { length source.whole.now < 2 ^ 32 - 1 }
    ensures { OnOk result (found.new.items ≡ found.old.items ++ spec.before_tokens (length text.now) source.entry.comments goal source.entry.whole.now fresh text.now rest.now) }
{
    let mut first = fresh;
    let mut left = text;
    'tokens: for turn in 0..text.len() {
        if left.len() <= rest.len() {
            return Ok(());
        }
        add_before_token(source, first, left, found)?;
        let behind = behind_token(source.comments, goal, first, left);
        left = behind;
        first = false;
    }
    Ok(())
}

/// The comments of a text that is written with pieces.
fn comments_between(
    alloc: Global,
    source: Source<'_>,
    pieces: &[Piece<'_>],
) -> Result<Vec<Comment>, CommentsFault>
    requires { length source.whole.now < 2 ^ 32 - 1 }
    ensures { IfOk result (λ found. HasComments source.entry.comments (map piece_view pieces.now) source.entry.whole.now found.items) }
{
    let mut found = Vec::new(alloc);
    let mut rest = source.whole;
    let mut fresh = true;
    let mut ending = Ending::Closed;
    'pieces: for i in 0..pieces.len() {
        let piece = pieces[i];
        let Some(behind) = take(source.comments, true, fresh, ending, rest, piece) else {
            return Err(CommentsFault::OtherText);
        };
        add_before_tokens(source, goal_of(piece), fresh, rest, behind, &mut found)?;
        rest = behind;
        fresh = fresh_behind(fresh, piece);
        ending = ending_behind(ending, piece);
    }
    add_before_token(source, fresh, rest, &mut found)?;
    Ok(found)
}

/// The comments of a text, in their order, each with the tokens that it stands between; `tree` is that of the text. Passes move
/// those that lead a position and those that trail one: which of the two a comment does is the caller's choice, most often
/// that it trails what stands before it in its line.
///
/// # Errors
///
/// `OtherText` where the text is not the tree's, `TooLong` where positions have not room, `NoMemory` where memory is refused.
pub fn find_comments(
    alloc: Global,
    comments: Comments,
    text: &[u8],
    tree: &Node,
) -> Result<Vec<Comment>, CommentsFault>
    ensures { IfOk result (λ found. HasComments comments (pieces_of tree.now) text.now found.items) }
{
    if text.len() >= u32::MAX as usize {
        return Err(CommentsFault::TooLong);
    }
    let found = pieces(alloc, tree)?;
    let source = Source {
        comments,
        whole: text,
    };
    comments_between(alloc, source, &found)
}
