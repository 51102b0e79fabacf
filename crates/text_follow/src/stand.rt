//! A text held against the frames of a tree's nodes.
ghost use Rattle.std.specs.Prelude.{◌≡◌, ◌∷◌, [], None, false, IfSome, IsTrue};
ghost use Rattle.text_follow.specs.Endings as spec;
ghost use Rattle.text_follow.specs.Follows.{Reads, Takes};
ghost use Rattle.text_follow.specs.Follows.{fresh_behind as is_fresh_behind};
ghost use Rattle.text_follow.specs.Readers.{IsFront, IsKnown, IsNext, IsOver, ReadsOn};
ghost use Rattle.text_follow.specs.Stands.{BeginsAt, HasName, IsAt, IsSo, Says};
ghost use Rattle.text_pieces.specs.declared.item.Ending.TheVariants as ending;
ghost use Rattle.text_pieces.specs.Tokens.{begins, frame, name, named, piece_view, punctuator, stops, word};

use crate::ending::ending_behind;
use crate::follow::{fresh_behind, read, take};
use crate::plain::{behind_mark, behind_name};
use swc_tree_marks::Span;
use text_lexer::{Comments, Mark, skip_blank};
use text_pieces::{Ending, Frame, Piece};

fn is_at(whole: usize, rest: &[u8], place: usize) -> bool
    ensures { IsTrue result → IsAt whole rest.now place }
{
    0 < place && (place - 1 <= whole && rest.len() == whole - (place - 1))
}

fn begins_at(whole: usize, comments: Comments, fresh: bool, text: &[u8], place: usize) -> bool
    ensures { IsTrue result → BeginsAt whole comments fresh text.now place }
{
    match skip_blank(comments, fresh, text) {
        Some((_, next)) => is_at(whole, next, place),
        None => false,
    }
}

fn has_name(
    whole: usize,
    comments: Comments,
    fresh: bool,
    text: &[u8],
    name: &str,
    span: Span,
) -> bool
    ensures { IsTrue result → HasName whole comments fresh text.now name.now span }
{
    match read(comments, fresh, text, Piece::Name(name)) {
        Some(rest) => {
            begins_at(whole, comments, fresh, text, span.lo as usize)
                && is_at(whole, rest, span.hi as usize)
        }
        None => false,
    }
}

fn is_named(
    whole: usize,
    comments: Comments,
    fresh: bool,
    text: &[u8],
    name: &str,
    span: Span,
) -> bool
    ensures { IsTrue result → Says whole comments fresh (named name.now span) text.now }
{
    if has_name(whole, comments, fresh, text, name, span) {
        return true;
    }
    match read(comments, fresh, text, Piece::Mark(Mark::LeftParen)) {
        Some(inner) => has_name(whole, comments, false, inner, name, span),
        None => false,
    }
}

fn is_so(whole: usize, comments: Comments, fresh: bool, text: &[u8], piece: Piece<'_>) -> bool
    ensures { IsTrue result → IsSo whole comments fresh (piece_view piece.entry) text.now }
{
    match piece {
        Piece::Frame(Frame::Begins(place)) => begins_at(whole, comments, fresh, text, place),
        Piece::Frame(Frame::Stops(place)) => is_at(whole, text, place),
        Piece::Frame(Frame::Named(name, span)) => {
            is_named(whole, comments, fresh, text, name, span)
        }
        _ => true,
    }
}

// Where a text is read on.
#[derive(Clone, Copy)]
struct Place<'t> {
    rest: &'t [u8],
    // Nothing stands before.
    fresh: bool,
    // How what stands before ends.
    ending: Ending,
    // What is left behind the blanks here, if that is known: they are skipped once, however many nodes begin with the next token.
    next: Option<&'t [u8]>,
}

// Behind a token.
#[inline]
fn behind_token(rest: &[u8]) -> Place<'_>
    ensures rest { result.rest.now ≡ rest.now }
    ensures fresh { result.fresh ≡ false }
    ensures ending { result.ending ≡ ending.Open }
    ensures known { (comments : Comments) → IsKnown comments result }
{
    Place {
        rest,
        fresh: false,
        ending: Ending::Open,
        next: None,
    }
}

fn past_blanks(comments: Comments, fresh: bool, text: &[u8]) -> Option<&[u8]>
    ensures { IfSome result (λ next. IsNext comments fresh text.now next.now) }
{
    let (_, next) = skip_blank(comments, fresh, text)?;
    Some(next)
}

// What is left behind the blanks at a place.
#[inline]
fn next_at<'t>(comments: Comments, place: Place<'t>) -> Option<&'t [u8]>
    ensures { IsKnown comments place.entry → IfSome result (λ next. IsNext comments place.entry.fresh place.entry.rest.now next.now) }
{
    match place.next {
        Some(next) => Some(next),
        None => past_blanks(comments, place.fresh, place.rest),
    }
}

// The same, if it begins at a place of the text.
#[inline]
fn next_if_at<'t>(whole: usize, comments: Comments, place: Place<'t>, at: usize) -> Option<&'t [u8]>
    ensures next { IsKnown comments place.entry → IfSome result (λ next. IsNext comments place.entry.fresh place.entry.rest.now next.now) }
    ensures begins { IfSome result (λ next. IsAt whole next.now at) }
{
    let next = next_at(comments, place)?;
    if is_at(whole, next, at) {
        Some(next)
    } else {
        None
    }
}

// What is left behind a punctuator, if the first bytes of the next token tell that it is that.
#[inline]
fn behind_mark_at<'t>(comments: Comments, place: Place<'t>, mark: Mark) -> Option<&'t [u8]>
    ensures { IsKnown comments place.entry → IfSome result (λ rest. Reads comments place.entry.fresh place.entry.rest.now (punctuator mark) rest.now) }
{
    let next = next_at(comments, place)?;
    behind_mark(next, mark)
}

// What is left behind a word, whether as a name or not, if the first bytes of the next token tell that it is that.
#[inline]
fn behind_name_at<'t>(comments: Comments, place: Place<'t>, text: &str) -> Option<&'t [u8]>
    ensures words { IsKnown comments place.entry → IfSome result (λ rest. Reads comments place.entry.fresh place.entry.rest.now (word text.now) rest.now) }
    ensures names { IsKnown comments place.entry → IfSome result (λ rest. Reads comments place.entry.fresh place.entry.rest.now (name text.now) rest.now) }
{
    let next = next_at(comments, place)?;
    behind_name(next, text)
}

fn begin<'t>(whole: usize, comments: Comments, place: Place<'t>, at: usize) -> Option<Place<'t>>
    ensures begins { IsKnown comments place.entry → IfSome result (λ next. BeginsAt whole comments place.entry.fresh place.entry.rest.now at) }
    ensures rest { IfSome result (λ next. next.rest.now ≡ place.entry.rest.now) }
    ensures fresh { IfSome result (λ next. next.fresh ≡ place.entry.fresh) }
    ensures ending { IfSome result (λ next. next.ending ≡ place.entry.ending) }
    ensures known { IsKnown comments place.entry → IfSome result (IsKnown comments) }
{
    let next = next_if_at(whole, comments, place, at)?;
    Some(Place {
        rest: place.rest,
        fresh: place.fresh,
        ending: place.ending,
        next: Some(next),
    })
}

fn pass<'t>(
    whole: usize,
    comments: Comments,
    soft: bool,
    place: Place<'t>,
    piece: Piece<'_>,
) -> Option<Place<'t>>
    ensures so { IfSome result (λ next. IsSo whole comments place.entry.fresh (piece_view piece.entry) place.entry.rest.now) }
    ensures takes { IfSome result (λ next. Takes comments soft place.entry.fresh place.entry.ending (piece_view piece.entry) place.entry.rest.now next.rest.now) }
    ensures fresh { IfSome result (λ next. next.fresh ≡ is_fresh_behind place.entry.fresh (piece_view piece.entry)) }
    ensures ending { IfSome result (λ next. next.ending ≡ spec.ending_behind place.entry.ending (piece_view piece.entry)) }
    ensures known { IfSome result (IsKnown comments) }
{
    if !is_so(whole, comments, place.fresh, place.rest, piece) {
        return None;
    }
    let rest = take(comments, soft, place.fresh, place.ending, place.rest, piece)?;
    Some(Place {
        rest,
        fresh: fresh_behind(place.fresh, piece),
        ending: ending_behind(place.ending, piece),
        next: None,
    })
}

fn step<'t>(
    whole: usize,
    comments: Comments,
    soft: bool,
    place: Place<'t>,
    piece: Piece<'_>,
) -> Option<Place<'t>>
    ensures so { IsKnown comments place.entry → IfSome result (λ next. IsSo whole comments place.entry.fresh (piece_view piece.entry) place.entry.rest.now) }
    ensures takes { IfSome result (λ next. Takes comments soft place.entry.fresh place.entry.ending (piece_view piece.entry) place.entry.rest.now next.rest.now) }
    ensures fresh { IfSome result (λ next. next.fresh ≡ is_fresh_behind place.entry.fresh (piece_view piece.entry)) }
    ensures ending { IfSome result (λ next. next.ending ≡ spec.ending_behind place.entry.ending (piece_view piece.entry)) }
    ensures known { IsKnown comments place.entry → IfSome result (IsKnown comments) }
{
    match piece {
        Piece::Frame(Frame::Begins(at)) => begin(whole, comments, place, at),
        _ => pass(whole, comments, soft, place, piece),
    }
}

/// A text that is held against pieces, one after another.
#[derive(Clone, Copy)]
pub struct Reader<'t> {
    whole: usize,
    comments: Comments,
    soft: bool,
    place: Place<'t>,
}

impl<'t> Reader<'t> {
    /// Of a text of which nothing is read yet; `soft`: where what a tree doesn't tell may be there or not.
    pub fn new(comments: Comments, soft: bool, text: &'t [u8]) -> Reader<'t>
        ensures { IsFront comments soft text.now result }
    {
        Reader {
            whole: text.len(),
            comments,
            soft,
            place: Place {
                rest: text,
                fresh: true,
                ending: Ending::Closed,
                next: None,
            },
        }
    }

    /// Reads on past a piece, if the text goes on with it; of a frame, if what it says is so.
    pub fn read_on(&mut self, piece: Piece<'_>) -> bool
        ensures { IsTrue result → ReadsOn self.old (piece_view piece.entry ∷ []) self.new }
    {
        match step(self.whole, self.comments, self.soft, self.place, piece) {
            Some(next) => {
                self.place = next;
                true
            }
            None => false,
        }
    }

    /// The same past a punctuator.
    #[inline]
    pub fn read_mark(&mut self, mark: Mark) -> bool
        ensures { IsTrue result → ReadsOn self.old (punctuator mark ∷ []) self.new }
    {
        match behind_mark_at(self.comments, self.place, mark) {
            Some(rest) => {
                self.place = behind_token(rest);
                true
            }
            None => self.read_on(Piece::Mark(mark)),
        }
    }

    /// The same past a word of the grammar.
    #[inline]
    pub fn read_word(&mut self, text: &str) -> bool
        ensures { IsTrue result → ReadsOn self.old (word text.now ∷ []) self.new }
    {
        match behind_name_at(self.comments, self.place, text) {
            Some(rest) => {
                self.place = behind_token(rest);
                true
            }
            None => self.read_on(Piece::Word(text)),
        }
    }

    /// The same past a name.
    #[inline]
    pub fn read_name(&mut self, text: &str) -> bool
        ensures { IsTrue result → ReadsOn self.old (name text.now ∷ []) self.new }
    {
        match behind_name_at(self.comments, self.place, text) {
            Some(rest) => {
                self.place = behind_token(rest);
                true
            }
            None => self.read_on(Piece::Name(text)),
        }
    }

    /// Whether the next token begins at a place. What is left behind the blanks is kept, since most nodes begin with another.
    #[inline]
    pub fn begins_at(&mut self, at: usize) -> bool
        ensures { IsTrue result → ReadsOn self.old (frame (begins at) ∷ []) self.new }
    {
        match next_if_at(self.whole, self.comments, self.place, at) {
            Some(next) => {
                self.place.next = Some(next);
                true
            }
            None => false,
        }
    }

    /// Whether the last token has ended before a place.
    #[inline]
    pub fn stops_at(&self, at: usize) -> bool
        ensures { IsTrue result → ReadsOn self.now (frame (stops at) ∷ []) self.now }
    {
        is_at(self.whole, self.place.rest, at)
    }

    /// Whether no token is left.
    pub fn is_over(&self) -> bool
        ensures { IsTrue result → IsOver self.now }
    {
        match skip_blank(self.comments, self.place.fresh, self.place.rest) {
            Some((_, end)) => end.is_empty(),
            None => false,
        }
    }
}
