//! What is told by its first bytes alone, all of them below 128: most names, blanks and punctuators.
ghost use Rattle.std.specs.Prelude.{◌≡◌, ◌<◌, ◌≤◌, ◌||◌, ◌==◌, length, take, drop, Ok, IfSome};
ghost use Rattle.std.specs.List.{prefix_len};
ghost use Rattle.text_lexer.specs.Blanks.{blank};
ghost use Rattle.text_lexer.specs.Lexical.{token_at};
ghost use Rattle.text_lexer.specs.Plain as spec;
ghost use Rattle.text_lexer.specs.Tokens.{name, punctuator};

use crate::blank::Comments;
use crate::mark::Mark;
use crate::sign::has_template_tail;
use crate::token::Goal;
use text_characters::{byte_at, first};

#[inline]
fn is_plain_start(byte: u8) -> bool
    ensures { result ≡ spec.is_plain_start byte }
{
    matches!(byte, b'A'..=b'Z' | b'a'..=b'z' | b'$' | b'_')
}

#[inline(always)]
fn is_plain_part(byte: u8) -> bool
    ensures { result ≡ spec.is_plain_part byte }
{
    // most characters of names are small letters
    matches!(byte, b'a'..=b'z') || matches!(byte, b'A'..=b'Z' | b'0'..=b'9' | b'$' | b'_')
}

#[inline]
fn is_plain_end(byte: u8) -> bool
    ensures { result ≡ spec.is_plain_end byte }
{
    byte < 128 && byte != b'\\'
}

/// How many characters of a name stand at the front of a text, up to the first that is not plain.
#[inline]
fn plain_parts(text: &[u8]) -> usize
    ensures value { result ≡ prefix_len spec.is_plain_part text.now }
    ensures within { result ≤ length text.now }
{
    text.iter().take_while(|byte| is_plain_part(**byte)).count()
}

/// How many bytes the name has that a text begins with, where all its characters are plain, each one byte and no escape; else 0.
#[inline]
pub fn plain_name(goal: Goal, text: &[u8]) -> usize
    ensures value { 0 < result → token_at goal text.now ≡ Ok (name (take result text.now), drop result text.now) }
    ensures within { result ≤ length text.now }
{
    if !is_plain_start(first(text)) {
        return 0;
    }
    let len = plain_parts(text);
    if is_plain_end(byte_at(text, len)) {
        len
    } else {
        0
    }
}

#[inline]
fn lone_mark(goal: Goal, byte: u8, next: u8) -> Option<Mark>
    ensures { result ≡ spec.lone_mark goal byte next }
{
    match byte {
        b'(' => Some(Mark::LeftParen),
        b')' => Some(Mark::RightParen),
        b'.' if next != b'.' && !next.is_ascii_digit() => Some(Mark::Dot),
        b',' => Some(Mark::Comma),
        b';' => Some(Mark::Semicolon),
        b'=' if next != b'=' && next != b'>' => Some(Mark::Assign),
        b'{' => Some(Mark::LeftBrace),
        b'}' if !has_template_tail(goal) => Some(Mark::RightBrace),
        b':' => Some(Mark::Colon),
        b'[' => Some(Mark::LeftBracket),
        b']' => Some(Mark::RightBracket),
        _ => None,
    }
}

/// The punctuator of one byte that a text begins with, where the byte behind it tells that it is none that is longer.
#[inline]
pub fn plain_mark(goal: Goal, text: &[u8]) -> Option<Mark>
    ensures value { IfSome result (λ mark. token_at goal text.now ≡ Ok (punctuator mark, drop 1 text.now)) }
    ensures some { IfSome result (λ _. 0 < length text.now) }
{
    lone_mark(goal, first(text), byte_at(text, 1))
}

#[inline]
pub(crate) fn is_plain_blank(byte: u8) -> bool
    ensures { result ≡ spec.is_plain_blank byte }
{
    byte == b' ' || byte == b'\n' || byte == b'\t'
}

/// Whether neither a blank nor a comment begins with a byte.
#[inline]
pub(crate) fn is_plain_stop(byte: u8) -> bool
    ensures { result ≡ spec.is_plain_stop byte }
{
    b' ' < byte && byte < 127 && byte != b'/' && byte != b'<' && byte != b'-'
}

/// Whether a line has ended, before a byte or with it.
#[inline]
pub(crate) fn has_ended(ended: bool, byte: u8) -> bool
    ensures { result ≡ (ended || byte == 10) }
{
    ended || byte == b'\n'
}

/// What is left behind spaces, tabs and line feeds, and whether a line has ended among them or before.
#[inline]
pub(crate) fn past_plain(comments: Comments, fresh: bool, text: &[u8]) -> (bool, &[u8])
    ensures value { blank comments result.0 result.1.now ≡ blank comments fresh text.now }
    ensures within { length result.1.now ≤ length text.now }
{
    let mut ended = fresh;
    'bytes: for at in 0..text.len() {
        if !is_plain_blank(text[at]) {
            return (ended, &text[at..]);
        }
        ended = has_ended(ended, text[at]);
    }
    (ended, &text[text.len()..])
}
