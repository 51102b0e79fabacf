//! A text held against the pieces of a tree.
ghost use Rattle.std.specs.Prelude.{◌≡◌, true, map, IsTrue, IfSome};
ghost use Rattle.text_follow.specs.Follows.{Follows, InParens, MayInsert, Reads, ReadsAttribute, ReadsHashbang, ReadsThree, Takes, fresh_behind};
ghost use Rattle.text_follow.specs.Follows as spec;
ghost use Rattle.text_lexer.specs.Lexical.{token_at as token_there};
ghost use Rattle.text_lexer.specs.Tokens as tokens;
ghost use Rattle.text_lexer.specs.Tokens.{token_view};
ghost use Rattle.text_lexer.specs.declared.token.Goal.TheVariants as goal;
ghost use Rattle.text_pieces.specs.Tokens.{attribute, parameter, piece_view};

use crate::ending::{ending_behind, goes_on, is_loop};
use crate::plain::take_plain;
use crate::spell::{goal_of, same, spells};
use text_characters::byte_at;
use text_lexer::{Comments, Goal, Mark, Token, skip_blank, token_at};
use text_pieces::{Ending, Piece};

// What is left behind a token, if the text begins with it.
pub(crate) fn read<'a>(
    comments: Comments,
    fresh: bool,
    text: &'a [u8],
    piece: Piece<'_>,
) -> Option<&'a [u8]>
    ensures { IfSome result (λ rest. Reads comments fresh text.now (piece_view piece.entry) rest.now) }
{
    let (_, next) = skip_blank(comments, fresh, text)?;
    match token_at(goal_of(piece), next) {
        Ok((token, rest)) => {
            if spells(byte_at(next, 0), token, piece) {
                Some(rest)
            } else {
                None
            }
        }
        Err(_) => None,
    }
}

fn read_three<'a>(
    comments: Comments,
    fresh: bool,
    text: &'a [u8],
    one: Piece<'_>,
    two: Piece<'_>,
    three: Piece<'_>,
) -> Option<&'a [u8]>
    ensures { IfSome result (λ rest. ReadsThree comments fresh text.now (piece_view one.entry) (piece_view two.entry) (piece_view three.entry) rest.now) }
{
    let inner = read(comments, fresh, text, one)?;
    let close = read(comments, false, inner, two)?;
    let rest = read(comments, false, close, three)?;
    Some(rest)
}

// Whether what ends thus does not go on.
fn stops(ending: Ending, text: &[u8]) -> bool
    ensures { result ≡ spec.stops ending (token_there goal.Div text.now) }
{
    match token_at(Goal::Div, text) {
        Ok((token, _)) => !goes_on(ending, token),
        Err(_) => false,
    }
}

fn may_stand(ended: bool, ending: Ending, next: &[u8]) -> bool
    ensures { result ≡ spec.may_stand ended ending next.now }
{
    next.is_empty()
        || byte_at(next, 0) == b'}'
        || ((ended || is_loop(ending)) && stops(ending, next))
}

fn may_insert(comments: Comments, fresh: bool, ending: Ending, text: &[u8]) -> bool
    ensures { IsTrue result → MayInsert comments fresh ending text.now }
{
    let Some((ended, next)) = skip_blank(comments, fresh, text) else {
        return false;
    };
    may_stand(ended, ending, next)
}

fn take_end(
    comments: Comments,
    soft: bool,
    fresh: bool,
    ending: Ending,
    text: &[u8],
) -> Option<&[u8]>
    ensures { IfSome result (λ rest. Takes comments soft fresh ending (piece_view Piece.End) text.now rest.now) }
{
    match read(comments, fresh, text, Piece::Mark(Mark::Semicolon)) {
        Some(rest) => Some(rest),
        None => {
            if soft && may_insert(comments, fresh, ending, text) {
                Some(text)
            } else {
                None
            }
        }
    }
}

fn take_comma(
    comments: Comments,
    soft: bool,
    fresh: bool,
    ending: Ending,
    text: &[u8],
) -> Option<&[u8]>
    ensures { IfSome result (λ rest. Takes comments soft fresh ending (piece_view Piece.MayComma) text.now rest.now) }
{
    if !soft {
        return Some(text);
    }
    match read(comments, fresh, text, Piece::Mark(Mark::Comma)) {
        Some(rest) => Some(rest),
        None => Some(text),
    }
}

fn take_from(
    comments: Comments,
    soft: bool,
    fresh: bool,
    ending: Ending,
    text: &[u8],
) -> Option<&[u8]>
    ensures { IfSome result (λ rest. Takes comments soft fresh ending (piece_view Piece.MayFrom) text.now rest.now) }
{
    if !soft {
        return Some(text);
    }
    let braces = (Piece::Mark(Mark::LeftBrace), Piece::Mark(Mark::RightBrace));
    match read_three(
        comments,
        fresh,
        text,
        braces.0,
        braces.1,
        Piece::Word("from"),
    ) {
        Some(rest) => Some(rest),
        None => Some(text),
    }
}

fn take_braces(
    comments: Comments,
    soft: bool,
    fresh: bool,
    ending: Ending,
    text: &[u8],
) -> Option<&[u8]>
    ensures { IfSome result (λ rest. Takes comments soft fresh ending (piece_view Piece.MayBraces) text.now rest.now) }
{
    if !soft {
        return Some(text);
    }
    let braces = (Piece::Mark(Mark::LeftBrace), Piece::Mark(Mark::RightBrace));
    match read_three(
        comments,
        fresh,
        text,
        Piece::Mark(Mark::Comma),
        braces.0,
        braces.1,
    ) {
        Some(rest) => Some(rest),
        None => Some(text),
    }
}

fn in_parens_with_comma<'a>(
    comments: Comments,
    fresh: bool,
    text: &'a [u8],
    name: &str,
) -> Option<&'a [u8]>
    ensures { IfSome result (λ rest. InParens comments true fresh text.now name.now rest.now) }
{
    let close = read_three(
        comments,
        fresh,
        text,
        Piece::Mark(Mark::LeftParen),
        Piece::Name(name),
        Piece::Mark(Mark::Comma),
    )?;
    let rest = read(comments, false, close, Piece::Mark(Mark::RightParen))?;
    Some(rest)
}

fn in_parens<'a>(
    comments: Comments,
    soft: bool,
    fresh: bool,
    text: &'a [u8],
    name: &str,
) -> Option<&'a [u8]>
    ensures { IfSome result (λ rest. InParens comments soft fresh text.now name.now rest.now) }
{
    match read_three(
        comments,
        fresh,
        text,
        Piece::Mark(Mark::LeftParen),
        Piece::Name(name),
        Piece::Mark(Mark::RightParen),
    ) {
        Some(rest) => Some(rest),
        None => {
            if soft {
                in_parens_with_comma(comments, fresh, text, name)
            } else {
                None
            }
        }
    }
}

fn take_parameter<'a>(
    comments: Comments,
    soft: bool,
    fresh: bool,
    ending: Ending,
    text: &'a [u8],
    name: &str,
) -> Option<&'a [u8]>
    ensures { IfSome result (λ rest. Takes comments soft fresh ending (parameter name.now) text.now rest.now) }
{
    match in_parens(comments, soft, fresh, text, name) {
        Some(rest) => Some(rest),
        None => {
            if soft {
                read(comments, fresh, text, Piece::Name(name))
            } else {
                None
            }
        }
    }
}

fn take_attribute<'a>(
    comments: Comments,
    fresh: bool,
    text: &'a [u8],
    key: &str,
    value: &str,
) -> Option<&'a [u8]>
    ensures { IfSome result (λ rest. ReadsAttribute comments fresh text.now key.now value.now rest.now) }
{
    match read_three(
        comments,
        fresh,
        text,
        Piece::Name(key),
        Piece::Mark(Mark::Colon),
        Piece::Quoted(value, None),
    ) {
        Some(rest) => Some(rest),
        None => read_three(
            comments,
            fresh,
            text,
            Piece::Quoted(key, None),
            Piece::Mark(Mark::Colon),
            Piece::Quoted(value, None),
        ),
    }
}

fn take_here(
    comments: Comments,
    soft: bool,
    fresh: bool,
    ending: Ending,
    text: &[u8],
) -> Option<&[u8]>
    ensures { IfSome result (λ rest. Takes comments soft fresh ending (piece_view Piece.Here) text.now rest.now) }
{
    match skip_blank(comments, fresh, text) {
        Some((false, _)) => Some(text),
        _ => None,
    }
}

fn same_hashbang(token: Token<'_>, wanted: &str) -> bool
    ensures { IsTrue result → token_view token.entry ≡ tokens.hashbang wanted.now }
{
    match token {
        Token::Hashbang(line) => same(line, wanted.as_bytes()),
        _ => false,
    }
}

fn take_hashbang<'a>(fresh: bool, text: &'a [u8], wanted: &str) -> Option<&'a [u8]>
    ensures { IfSome result (λ rest. ReadsHashbang fresh text.now wanted.now rest.now) }
{
    if !fresh {
        return None;
    }
    match token_at(Goal::HashbangOrRegExp, text) {
        Ok((token, rest)) => {
            if same_hashbang(token, wanted) {
                Some(rest)
            } else {
                None
            }
        }
        Err(_) => None,
    }
}

// The same of any piece, whatever its first bytes are.
#[inline(never)]
fn take_any<'a>(
    comments: Comments,
    soft: bool,
    fresh: bool,
    ending: Ending,
    text: &'a [u8],
    piece: Piece<'_>,
) -> Option<&'a [u8]>
    ensures { IfSome result (λ rest. Takes comments soft fresh ending (piece_view piece.entry) text.now rest.now) }
{
    match piece {
        Piece::End => take_end(comments, soft, fresh, ending, text),
        Piece::MayComma => take_comma(comments, soft, fresh, ending, text),
        Piece::MayFrom => take_from(comments, soft, fresh, ending, text),
        Piece::MayBraces => take_braces(comments, soft, fresh, ending, text),
        Piece::Parameter(name) => take_parameter(comments, soft, fresh, ending, text, name),
        Piece::Attribute(key, value) => take_attribute(comments, fresh, text, key, value),
        Piece::Here => take_here(comments, soft, fresh, ending, text),
        Piece::Closes(_) | Piece::Gap(_) | Piece::Frame(_) => Some(text),
        Piece::Never => None,
        Piece::Word(_)
        | Piece::Name(_)
        | Piece::Private(_)
        | Piece::Mark(_)
        | Piece::Number(_)
        | Piece::BigInt(_)
        | Piece::Quoted(_, _)
        | Piece::Template(_, _, _)
        | Piece::Regex(_, _) => read(comments, fresh, text, piece),
        Piece::Hashbang(line) => take_hashbang(fresh, text, line),
    }
}

/// What is left behind a piece, if the text begins with it, where what stands before ends thus (`ending`), or nothing does
/// (`fresh`).
#[inline]
pub fn take<'a>(
    comments: Comments,
    soft: bool,
    fresh: bool,
    ending: Ending,
    text: &'a [u8],
    piece: Piece<'_>,
) -> Option<&'a [u8]>
    ensures { IfSome result (λ rest. Takes comments soft fresh ending (piece_view piece.entry) text.now rest.now) }
{
    match take_plain(comments, soft, fresh, ending, text, piece) {
        Some(rest) => Some(rest),
        None => take_any(comments, soft, fresh, ending, text, piece),
    }
}

/// Whether still nothing stands before what is left behind a piece.
pub fn fresh_behind(fresh: bool, piece: Piece<'_>) -> bool
    ensures { result ≡ fresh_behind fresh (piece_view piece.entry) }
{
    match piece {
        Piece::Closes(_) | Piece::Gap(_) | Piece::Frame(_) | Piece::Here => fresh,
        _ => false,
    }
}

/// Whether a text is written with these pieces, one after another; `soft`: where what a tree doesn't tell may be there or not.
#[tactic(auto, using(crate::proofs::Steps::one_more, crate::proofs::Steps::at_end))]
pub fn follows(comments: Comments, soft: bool, text: &[u8], pieces: &[Piece<'_>]) -> bool
    ensures { IsTrue result → Follows comments soft (map piece_view pieces.now) text.now }
{
    let mut rest = text;
    let mut fresh = true;
    let mut ending = Ending::Closed;
    for i in 0..pieces.len() {
        match take(comments, soft, fresh, ending, rest, pieces[i]) {
            Some(behind) => rest = behind,
            None => return false,
        }
        fresh = fresh_behind(fresh, pieces[i]);
        ending = ending_behind(ending, pieces[i]);
    }
    match skip_blank(comments, fresh, rest) {
        Some((_, end)) => end.is_empty(),
        None => false,
    }
}
