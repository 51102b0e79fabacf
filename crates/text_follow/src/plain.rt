//! Pieces that a text's first bytes alone tell: most words, names and punctuators.
ghost use Rattle.std.specs.Prelude.{◌≡◌, Ok, IfSome};
ghost use Rattle.text_follow.specs.Follows.{Reads, Takes};
ghost use Rattle.text_lexer.specs.Lexical.{token_at as token_there};
ghost use Rattle.text_lexer.specs.Tokens as token;
ghost use Rattle.text_lexer.specs.declared.token.Goal.TheVariants as goal;
ghost use Rattle.text_pieces.specs.Tokens.{name, piece_view, punctuator, word};

use crate::spell::{same, same_mark};
use text_characters::past_byte;
use text_lexer::{Comments, Goal, Mark, plain_mark, plain_name, skip_blank};
use text_pieces::{Ending, Piece};

/// What is left behind a name, if a text plainly begins with it.
#[inline]
pub(crate) fn behind_name<'a>(text: &'a [u8], wanted: &str) -> Option<&'a [u8]>
    ensures { IfSome result (λ rest. token_there goal.Div text.now ≡ Ok (token.name wanted.now, rest.now)) }
{
    let len = plain_name(Goal::Div, text);
    if 0 < len && same(&text[..len], wanted.as_bytes()) {
        Some(&text[len..])
    } else {
        None
    }
}

/// What is left behind a punctuator, if a text plainly begins with it.
#[inline]
pub(crate) fn behind_mark(text: &[u8], wanted: Mark) -> Option<&[u8]>
    ensures { IfSome result (λ rest. token_there goal.Div text.now ≡ Ok (token.punctuator wanted, rest.now)) }
{
    let mark = plain_mark(Goal::Div, text)?;
    if same_mark(mark, wanted) {
        Some(past_byte(text))
    } else {
        None
    }
}

#[inline]
fn read_name<'a>(comments: Comments, fresh: bool, text: &'a [u8], wanted: &str) -> Option<&'a [u8]>
    ensures words { IfSome result (λ rest. Reads comments fresh text.now (word wanted.now) rest.now) }
    ensures names { IfSome result (λ rest. Reads comments fresh text.now (name wanted.now) rest.now) }
{
    let (_, next) = skip_blank(comments, fresh, text)?;
    behind_name(next, wanted)
}

#[inline]
fn read_mark(comments: Comments, fresh: bool, text: &[u8], wanted: Mark) -> Option<&[u8]>
    ensures { IfSome result (λ rest. Reads comments fresh text.now (punctuator wanted) rest.now) }
{
    let (_, next) = skip_blank(comments, fresh, text)?;
    behind_mark(next, wanted)
}

/// What is left behind a piece, where its first bytes alone tell that the text begins with it; else nothing, whether it does or not.
#[inline]
pub(crate) fn take_plain<'a>(
    comments: Comments,
    soft: bool,
    fresh: bool,
    ending: Ending,
    text: &'a [u8],
    piece: Piece<'_>,
) -> Option<&'a [u8]>
    ensures { IfSome result (λ rest. Takes comments soft fresh ending (piece_view piece.entry) text.now rest.now) }
{
    match piece {
        Piece::Word(wanted) | Piece::Name(wanted) => read_name(comments, fresh, text, wanted),
        Piece::Mark(wanted) => read_mark(comments, fresh, text, wanted),
        Piece::End => read_mark(comments, fresh, text, Mark::Semicolon),
        _ => None,
    }
}
