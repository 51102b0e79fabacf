//! White space, line terminators and comments (ECMA-262, 12.2 to 12.4 and B.1.1).
ghost use Rattle.std.specs.Prelude.{◌≡◌, ◌≤◌, ◌<◌, length, option_map, false, IfSome};
ghost use Rattle.text_lexer.specs.Blanks as spec;
ghost use Rattle.text_lexer.specs.Skips.{skip_view, IsShorterWhere};

use crate::plain::{has_ended, is_plain_blank, is_plain_stop, past_plain};
use text_characters::{
    after_line_end, begins_line_end, behind, byte_at, first, is_space, past_byte, point,
};

/// Which comments a text may have.
#[derive(Clone, Copy)]
pub enum Comments {
    /// Those of a module: `//` and `/* */`.
    Module,
    /// Those of a script: HTML's too, `<!--`, and `-->` where a line begins.
    Script,
}

/// What is skipped at a place: nothing, something, or a comment that is not closed.
pub enum Skip<'a> {
    Stop,
    /// With whether a line has ended.
    Past(bool, &'a [u8]),
    Unclosed,
}

/// What is left behind a comment that goes to the end of its line.
#[tactic(auto, using(crate::proofs::Bytes::line_rest_drop, crate::proofs::Bytes::line_rest_end, std::proofs::lemmas::Grind::common_steps))]
pub(crate) fn line_rest(text: &[u8]) -> &[u8]
    ensures value { result.now ≡ spec.line_rest text.now }
    ensures within { length result.now ≤ length text.now }
{
    'bytes: for at in 0..text.len() {
        if begins_line_end(&text[at..]) {
            return &text[at..];
        }
    }
    &text[text.len()..]
}

/// What is left behind `*/`, and whether a line has ended, before it or in what is skipped.
#[tactic(auto, using(crate::proofs::Bytes::block_rest_drop, crate::proofs::Bytes::block_rest_end, std::proofs::lemmas::Grind::common_steps))]
fn block_rest(ended_before: bool, text: &[u8]) -> Option<(bool, &[u8])>
    ensures value { option_map (λ p. (p.0, p.1.now)) result ≡ spec.block_rest ended_before text.now }
    ensures within { IfSome result (λ p. length p.1.now ≤ length text.now) }
{
    let mut ended = ended_before;
    'bytes: for at in 0..text.len() {
        if text[at] == b'*' && byte_at(text, at + 1) == b'/' {
            return Some((ended, &text[at + 2..]));
        }
        ended = ended || begins_line_end(&text[at..]);
    }
    None
}

/// Whether a comment begins that goes to the end of its line.
#[inline]
fn begins_line_comment(comments: Comments, ended: bool, text: &[u8]) -> bool
    ensures { result ≡ spec.begins_line_comment comments ended text.now }
{
    if text.starts_with(b"//") {
        return true;
    }
    match comments {
        Comments::Module => false,
        Comments::Script => text.starts_with(b"<!--") || ended && text.starts_with(b"-->"),
    }
}

fn skip_block(ended: bool, text: &[u8]) -> Skip<'_>
    ensures value { skip_view result ≡ spec.past_block (spec.block_rest ended text.now) }
    ensures within { IsShorterWhere (λ n. n ≤ length text.now) (skip_view result) }
{
    match block_rest(ended, text) {
        Some((ended, rest)) => Skip::Past(ended, rest),
        None => Skip::Unclosed,
    }
}

/// The same of a place, whatever byte stands there.
#[tactic(auto, unfolding(crate::specs::Blanks::skip_piece))]
#[cold]
#[inline(never)]
fn other_piece(comments: Comments, ended: bool, text: &[u8]) -> Skip<'_>
    ensures value { skip_view result ≡ spec.skip_piece comments ended text.now }
    ensures within { IsShorterWhere (λ n. n ≤ length text.now) (skip_view result) }
{
    if begins_line_end(text) {
        Skip::Past(true, after_line_end(text))
    } else if is_space(point(text)) {
        Skip::Past(ended, behind(text))
    } else if begins_line_comment(comments, ended, text) {
        Skip::Past(ended, line_rest(text))
    } else if text.starts_with(b"/*") {
        skip_block(ended, &text[2..])
    } else {
        Skip::Stop
    }
}

/// What is skipped at a place: the white space, the line terminator or the comment that a text begins with, of which it is told
/// whether a line has ended in it or before (`ended`).
#[inline]
pub fn skip_piece(comments: Comments, ended: bool, text: &[u8]) -> Skip<'_>
    ensures value { skip_view result ≡ spec.skip_piece comments ended text.now }
    ensures within { IsShorterWhere (λ n. n ≤ length text.now) (skip_view result) }
{
    let byte = first(text);
    if is_plain_stop(byte) {
        Skip::Stop
    } else if is_plain_blank(byte) {
        Skip::Past(has_ended(ended, byte), past_byte(text))
    } else {
        other_piece(comments, ended, text)
    }
}

/// The same where anything may stand at the front.
#[tactic(auto, using(crate::proofs::Walks::blank_from_past, std::proofs::lemmas::Grind::common_steps))]
#[cold]
#[inline(never)]
fn other_blank(comments: Comments, fresh: bool, text: &[u8]) -> Option<(bool, &[u8])>
    ensures value { option_map (λ p. (p.0, p.1.now)) result ≡ spec.blank comments fresh text.now }
    ensures within { IfSome result (λ p. length p.1.now ≤ length text.now) }
{
    let mut ended = fresh;
    let mut rest = text;
    'pieces: for turn in 0..text.len() {
        match skip_piece(comments, ended, rest) {
            Skip::Stop => return Some((ended, rest)),
            Skip::Unclosed => return None,
            Skip::Past(now_ended, behind) => {
                ended = now_ended;
                rest = behind;
            }
        }
    }
    Some((ended, rest))
}

/// What is left behind white space, line terminators and comments, and whether a line has ended among them, or begun with
/// the text (`fresh`). `None` where a comment is not closed.
#[inline]
#[tactic(auto, using(crate::proofs::Ascii::blank_stop, std::proofs::lemmas::Grind::common_steps))]
pub fn skip_blank(comments: Comments, fresh: bool, text: &[u8]) -> Option<(bool, &[u8])>
    ensures value { option_map (λ p. (p.0, p.1.now)) result ≡ spec.blank comments fresh text.now }
    ensures within { IfSome result (λ p. length p.1.now ≤ length text.now) }
{
    let (ended, rest) = past_plain(comments, fresh, text);
    if is_plain_stop(first(rest)) {
        Some((ended, rest))
    } else {
        other_blank(comments, ended, rest)
    }
}
