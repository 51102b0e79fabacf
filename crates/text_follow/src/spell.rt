//! Whether a token of a text is a piece of a tree.
ghost use Rattle.std.specs.Prelude.{◌≡◌, ◌++◌, ◌∷◌, [], IsTrue};
ghost use Rattle.std.specs.Option.{option_copied};
ghost use Rattle.text_follow.specs.Follows.{IsCooked, IsRaw, Spells, goal_of};
ghost use Rattle.text_lexer.specs.Tokens.{token_view};
ghost use Rattle.text_pieces.specs.Tokens.{piece_view};

use text_lexer::{Goal, Mark, TemplatePart, Token};
use text_pieces::Piece;
use text_strings::Reading;
use text_values::{cooks_to, has_good_escapes, raw_is};

/// The lexical goal of the place where a piece stands.
pub fn goal_of(piece: Piece<'_>) -> Goal
    ensures { result ≡ goal_of (piece_view piece.entry) }
{
    match piece {
        Piece::Regex(_, _) => Goal::RegExp,
        Piece::Template(TemplatePart::Middle | TemplatePart::Tail, _, _) => Goal::TemplateTail,
        Piece::Hashbang(_) => Goal::HashbangOrRegExp,
        _ => Goal::Div,
    }
}

pub(crate) fn same_mark(mark: Mark, wanted: Mark) -> bool
    ensures { IsTrue result → mark ≡ wanted }
{
    mark == wanted
}

fn same_part(part: TemplatePart, wanted: TemplatePart) -> bool
    ensures { IsTrue result → part ≡ wanted }
{
    part == wanted
}

pub(crate) fn same(one: &[u8], other: &[u8]) -> bool
    ensures { IsTrue result → one.now ≡ other.now }
{
    one == other
}

#[tactic(auto, using(crate::proofs::Raw::raw_whole))]
fn is_between(quote: u8, body: &[u8], raw: &[u8]) -> bool
    ensures { IsTrue result → raw.now ≡ quote ∷ body.now ++ quote ∷ [] }
{
    if raw.len() < body.len() + 2 {
        return false;
    }
    let (open, behind) = raw.split_at(1);
    let (inside, close) = behind.split_at(body.len());
    let quotes = [quote];
    if !same(open, quotes.as_slice()) {
        return false;
    }
    if !same(inside, body) {
        return false;
    }
    same(close, quotes.as_slice())
}

fn is_raw(quote: u8, body: &[u8], raw: Option<&str>) -> bool
    ensures { IsTrue result → IsRaw quote body.now (option_copied raw.entry) }
{
    match raw {
        Some(raw) => is_between(quote, body, raw.as_bytes()),
        None => true,
    }
}

fn is_cooked(body: &[u8], value: Option<&str>) -> bool
    ensures { IsTrue result → IsCooked body.now (option_copied value.entry) }
{
    match value {
        Some(value) => cooks_to(Reading::Template, body, value.as_bytes()),
        None => !has_good_escapes(Reading::Template, body),
    }
}

/// Whether a token, whose first byte is `first`, is a piece.
pub(crate) fn spells(first: u8, token: Token<'_>, piece: Piece<'_>) -> bool
    ensures { IsTrue result → Spells first (token_view token.entry) (piece_view piece.entry) }
{
    match token {
        Token::Name(text) => match piece {
            Piece::Word(wanted) | Piece::Name(wanted) => text == wanted.as_bytes(),
            _ => false,
        },
        Token::EscapedName(text) => match piece {
            Piece::Name(wanted) => cooks_to(Reading::Quoted, text, wanted.as_bytes()),
            _ => false,
        },
        Token::PrivateName(text) => match piece {
            Piece::Private(wanted) => cooks_to(Reading::Quoted, text, wanted.as_bytes()),
            _ => false,
        },
        Token::Mark(mark) => match piece {
            Piece::Mark(wanted) => same_mark(mark, wanted),
            _ => false,
        },
        Token::Number(text) => match piece {
            Piece::Number(wanted) => text == wanted.as_bytes(),
            _ => false,
        },
        Token::BigInt(text) => match piece {
            Piece::BigInt(wanted) => text == wanted.as_bytes(),
            _ => false,
        },
        Token::Str(body) => match piece {
            Piece::Quoted(value, raw) => cooks_to(Reading::Quoted, body, value.as_bytes())
                && is_raw(first, body, raw),
            _ => false,
        },
        Token::Template(part, body) => match piece {
            Piece::Template(wanted, value, raw) => {
                same_part(part, wanted) && is_cooked(body, value) && raw_is(body, raw.as_bytes())
            }
            _ => false,
        },
        Token::Regex(body, flags) => match piece {
            Piece::Regex(wanted, others) => body == wanted.as_bytes() && flags == others.as_bytes(),
            _ => false,
        },
        Token::Hashbang(text) => match piece {
            Piece::Hashbang(wanted) => text == wanted.as_bytes(),
            _ => false,
        },
        Token::End => false,
    }
}
