//! Names (ECMA-262, 12.7).
ghost use Rattle.std.specs.Prelude.{◌≡◌, ◌<◌, ◌≤◌, Bool, length, is_some, option_map, IfSome};
ghost use Rattle.text_lexer.specs.Names as spec;
ghost use Rattle.text_lexer.specs.Tokens.{token_view};
ghost use Rattle.text_strings.specs.Escapes.{unicode_escape as spec_escape};

use crate::token::Token;
use text_characters::{behind, byte_at, first, is_name_part, is_name_start, point};
use text_strings::unicode_escape;

#[inline]
fn is_named(start: bool, point: u32) -> bool
    ensures { result ≡ spec.is_named start point }
{
    if start {
        is_name_start(point)
    } else {
        is_name_part(point)
    }
}

fn behind_escape(start: bool, text: &[u8]) -> Option<&[u8]>
    ensures value { option_map (λ rest. rest.now) result ≡ spec.behind_escape start (spec_escape text.now) }
    ensures shorter { IfSome result (λ rest. length rest.now < length text.now) }
{
    let (point, rest) = unicode_escape(text)?;
    if is_named(start, point) {
        Some(rest)
    } else {
        None
    }
}

/// What is left behind one character with which a name begins (`start`), or goes on; it may be written as an escape.
#[inline]
#[tactic(auto, using(crate::proofs::Starts::named_some, std::proofs::lemmas::Grind::common_steps), unfolding(crate::specs::Names::name_character))]
pub(crate) fn name_character(start: bool, text: &[u8]) -> Option<&[u8]>
    ensures value { option_map (λ rest. rest.now) result ≡ spec.name_character start text.now }
    ensures shorter { IfSome result (λ rest. length rest.now < length text.now) }
{
    if first(text) == b'\\' {
        if byte_at(text, 1) == b'u' {
            behind_escape(start, &text[2..])
        } else {
            None
        }
    } else if is_named(start, point(text)) {
        Some(behind(text))
    } else {
        None
    }
}

#[inline]
pub(crate) fn begins_name(text: &[u8]) -> bool
    ensures { result ≡ spec.begins_name text.now }
{
    name_character(true, text).is_some()
}

/// What is left behind all characters with which a name goes on.
#[tactic(auto, using(crate::proofs::Walks::name_rest_more, std::proofs::lemmas::Grind::common_steps))]
fn after_parts(text: &[u8]) -> &[u8]
    ensures value { result.now ≡ spec.after_parts text.now }
    ensures within { length result.now ≤ length text.now }
{
    let mut rest = text;
    'characters: for turn in 0..text.len() {
        match name_character(false, rest) {
            Some(behind) => rest = behind,
            None => return rest,
        }
    }
    rest
}

/// What is left behind the name at the front of a text, or nothing where it begins with none.
pub(crate) fn after_name(text: &[u8]) -> Option<&[u8]>
    ensures some { is_some result ≡ spec.begins_name text.now }
    ensures value { IfSome result (λ rest. rest.now ≡ spec.after_name text.now) }
    ensures shorter { IfSome result (λ rest. length rest.now < length text.now) }
{
    let behind = name_character(true, text)?;
    Some(after_parts(behind))
}

/// A name by its text, of which it is told whether an escape stands in it.
pub(crate) fn named(text: &[u8]) -> Token<'_>
    ensures { token_view result ≡ spec.named text.now }
{
    if text.contains(&b'\\') {
        Token::EscapedName(text)
    } else {
        Token::Name(text)
    }
}
