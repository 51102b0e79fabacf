//! What stands where a text changes. Nothing is promised of it here: the whole text is held against its tree in the end.
use crate::blanks::{
    end_byte, ends_line, first_byte, has_comment, in_line, is_name_byte, is_roomy, joins,
    joins_blanks, last_byte,
};
use std::alloc::{AllocError, Global};
use text_lexer::{Comments, Mark};
use text_pieces::{Gap, Piece};
use text_printer::{Bytes, Layout, text_of_pieces};

/// What is due where a text changes.
#[derive(Clone, Copy)]
pub(crate) struct Edge {
    /// A semicolon has been left to the reader, and nothing stands behind it.
    pub(crate) semicolon: bool,
    /// What is put next begins a line.
    pub(crate) line: bool,
    /// The blanks before the next old token are written.
    pub(crate) written: bool,
    /// The blanks before the next old token are left out, if no comment is among them.
    pub(crate) dropped: bool,
    /// The last token is new.
    pub(crate) inserted: bool,
    /// No line may end before the next token.
    pub(crate) here: bool,
    /// A line has ended behind the last token.
    pub(crate) ended: bool,
    /// What stood behind the semicolon is taken away.
    pub(crate) parted: bool,
}

impl Edge {
    /// Nothing has changed.
    pub(crate) fn settled() -> Edge {
        Edge {
            semicolon: false,
            line: false,
            written: false,
            dropped: false,
            inserted: false,
            here: false,
            ended: false,
            parted: false,
        }
    }

    /// Behind an old piece that stays, which may be written with nothing. The blanks behind a semicolon that is left to the
    /// reader are no part of what is taken away before it.
    pub(crate) fn behind(self, piece: Piece<'_>, is_empty: bool) -> Edge {
        if !is_empty {
            return Edge::settled();
        }
        match piece {
            Piece::End => Edge {
                semicolon: true,
                dropped: false,
                parted: false,
                ..self
            },
            Piece::Here => Edge { here: true, ..self },
            _ => self,
        }
    }

    /// Behind a new piece that is written with nothing.
    fn behind_gap(self, piece: Piece<'_>) -> Edge {
        match piece {
            Piece::Gap(Gap::Line) => Edge { line: true, ..self },
            Piece::Here => Edge { here: true, ..self },
            _ => self,
        }
    }

    /// Behind a new token.
    fn behind_new(self, leads: bool) -> Edge {
        Edge {
            written: self.written || leads,
            dropped: self.dropped,
            inserted: true,
            ..Edge::settled()
        }
    }

    /// The same where no line may end before the next token, if that is so.
    pub(crate) fn before(self, here: bool) -> Edge {
        Edge {
            here: self.here || here,
            ..self
        }
    }

    /// Behind an old piece that is taken away, of which blanks are left.
    pub(crate) fn behind_removed(self, comments: Comments, stood: &[u8], left: &[u8]) -> Edge {
        if stood.is_empty() {
            return self;
        }
        Edge {
            written: false,
            dropped: self.dropped || !closes(stood),
            ended: self.ended || ends_line(comments, left),
            parted: true,
            ..self
        }
    }

    /// Whether a semicolon that was left to the reader has to be written before a token that begins with this byte, where
    /// the blanks before it end a line or not.
    fn wants_semicolon(self, ended: bool, next: u8) -> bool {
        let stops = (self.ended || ended) && (!self.parted || is_name_byte(next));
        self.semicolon && next != b'}' && !stops
    }
}

fn last_of(old: &[u8], new: &[u8]) -> u8 {
    end_byte(if new.is_empty() { old } else { new })
}

/// Whether a text ends with the parenthesis that closes a pair.
fn closes(stood: &[u8]) -> bool {
    last_byte(stood) == b')'
}

/// Puts blanks behind a text, in one line where none may end there.
fn put_blanks(
    alloc: Global,
    comments: Comments,
    here: bool,
    last: u8,
    blanks: &[u8],
    new: &mut Bytes,
) {
    if joins_blanks(last, first_byte(blanks)) {
        new.put_byte(b' ');
    }
    if here && ends_line(comments, blanks) {
        new.put_all(&in_line(alloc, last == b' ', blanks));
    } else {
        new.put(blanks);
    }
}

/// A new token behind a text, and behind blanks of the old one if they are given.
fn new_token(
    alloc: Global,
    comments: Comments,
    edge: Edge,
    old: &[u8],
    blanks: Option<&[u8]>,
    token: &[u8],
) -> Bytes {
    let mut new = Bytes::new(alloc);
    let next = first_byte(token);
    if edge.semicolon && next != b'}' {
        new.put_byte(b';');
    }
    if edge.line && !old.is_empty() {
        new.put_byte(b'\n');
    }
    if let Some(blanks) = blanks {
        let last = last_of(old, new.as_slice());
        put_blanks(alloc, comments, edge.here, last, blanks, &mut new);
    }
    let last = last_of(old, new.as_slice());
    if joins(last, next) || edge.inserted && !edge.line && is_roomy(last, next) {
        new.put_byte(b' ');
    }
    new.put(token);
    new
}

/// A new piece behind a text, before these blanks of the old one.
pub(crate) fn put(
    alloc: Global,
    comments: Comments,
    edge: Edge,
    old: &[u8],
    blanks: &[u8],
    piece: Piece<'_>,
) -> Result<(Edge, Vec<u8>), AllocError> {
    let pieces = [piece];
    let token = text_of_pieces(alloc, Layout::Compact, pieces.as_slice())?;
    if token.is_empty() {
        return Ok((edge.behind_gap(piece), token));
    }
    let leads = matches!(piece, Piece::Mark(Mark::LeftParen)) && !edge.line && !edge.written;
    let between = if leads { Some(blanks) } else { None };
    let new = new_token(alloc, comments, edge, old, between, token.as_slice());
    match new.finish() {
        Ok(new) => Ok((edge.behind_new(leads), new)),
        Err(error) => Err(error),
    }
}

/// An old token behind a text that has changed, with what of the blanks before it stays.
pub(crate) fn keep(
    alloc: Global,
    comments: Comments,
    edge: Edge,
    old: &[u8],
    blanks: &[u8],
    stands: &[u8],
) -> Result<Vec<u8>, AllocError> {
    let mut new = Bytes::new(alloc);
    if stands.len() <= blanks.len() {
        return new.finish();
    }
    let token = &stands[blanks.len()..];
    let stays = !(edge.written || edge.dropped && !has_comment(blanks));
    if edge.wants_semicolon(stays && ends_line(comments, blanks), first_byte(token)) {
        new.put_byte(b';');
    }
    let last = last_of(old, new.as_slice());
    if stays && !blanks.is_empty() {
        put_blanks(alloc, comments, edge.here, last, blanks, &mut new);
    } else if joins(last, first_byte(token)) {
        new.put_byte(b' ');
    }
    new.put(token);
    new.finish()
}

/// What stays behind a text of an old token that is taken away: the blanks before it, where they are wanted.
pub(crate) fn left_of(
    alloc: Global,
    comments: Comments,
    edge: Edge,
    old: &[u8],
    blanks: &[u8],
    stood: &[u8],
) -> Result<Vec<u8>, AllocError> {
    let mut left = Bytes::new(alloc);
    let wanted = !stood.is_empty() && !edge.written;
    if wanted && (has_comment(blanks) || !(edge.dropped || closes(stood))) {
        let last = last_byte(old);
        put_blanks(alloc, comments, edge.here, last, blanks, &mut left);
    }
    left.finish()
}
