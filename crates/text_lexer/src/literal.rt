//! Strings, templates and regular expressions (ECMA-262, 12.9.4 to 12.9.6).
ghost use Rattle.std.specs.Prelude.{◌≡◌, ◌<◌, ◌≤◌, ◌+◌, ◌==◌, ◌||◌, true, false, length, option_map, IfSome, IfOk};
ghost use Rattle.text_characters.specs.Characters.{first as spec_first};
ghost use Rattle.text_lexer.specs.Literals as spec;
ghost use Rattle.text_lexer.specs.Tokens.{token_view, map_ok};

use crate::token::{Fault, TemplatePart, Token};
use text_characters::{begins_line_end, behind, byte_at, first, is_name_part, past_byte, point};
use text_strings::{Reading, next_unit};

#[inline]
fn closes(text: &[u8], quote: u8) -> bool
    ensures { result ≡ (spec_first text.now == quote) }
{
    first(text) == quote
}

/// Whether a line ends here that no string goes across.
#[inline]
fn breaks(text: &[u8]) -> bool
    ensures { result ≡ (spec_first text.now == 10 || spec_first text.now == 13) }
{
    first(text) == b'\n' || first(text) == b'\r'
}

/// What is left behind the quote that closes a string.
#[tactic(auto, using(crate::proofs::Walks::string_rest_step, std::proofs::lemmas::Grind::common_steps))]
fn string_rest(quote: u8, text: &[u8]) -> Result<&[u8], Fault>
    ensures value { map_ok (λ rest. rest.now) result ≡ spec.string_rest (length text.now) quote text.now }
    ensures shorter { IfOk result (λ rest. length rest.now < length text.now) }
{
    let mut rest = text;
    'units: for turn in 0..text.len() {
        if rest.is_empty() {
            return Err(Fault::Unterminated);
        }
        if closes(rest, quote) {
            return Ok(past_byte(rest));
        }
        if breaks(rest) {
            return Err(Fault::Unterminated);
        }
        match next_unit(Reading::Quoted, rest) {
            Some(found) => rest = found.1,
            None => return Err(Fault::BadEscape),
        }
    }
    Err(Fault::Unterminated)
}

/// The string at the front of a text that begins with a quote.
pub(crate) fn string_at(text: &[u8]) -> Result<(Token<'_>, &[u8]), Fault>
    ensures value { map_ok (λ p. (token_view p.0, p.1.now)) result ≡ spec.string_at text.now }
    ensures shorter { IfOk result (λ p. length p.1.now < length text.now) }
{
    let inner = past_byte(text);
    let rest = string_rest(first(text), inner)?;
    let len = inner.len() - rest.len() - 1;
    Ok((Token::Str(&inner[..len]), rest))
}

/// What is left behind a backquote, or behind `${`, which is told.
#[tactic(auto, using(crate::proofs::Bytes::template_rest_drop, crate::proofs::Bytes::template_rest_end, std::proofs::lemmas::Grind::common_steps))]
fn template_rest(text: &[u8]) -> Option<(bool, &[u8])>
    ensures value { option_map (λ p. (p.0, p.1.now)) result ≡ spec.template_rest false text.now }
    ensures shorter { IfSome result (λ p. length p.1.now < length text.now) }
    ensures opened { IfSome result (λ p. p.0 ≡ true → length p.1.now + 2 ≤ length text.now) }
{
    let mut escaped = false;
    'bytes: for at in 0..text.len() {
        let byte = text[at];
        if !escaped && byte == b'`' {
            return Some((false, &text[at + 1..]));
        }
        if !escaped && byte == b'$' && byte_at(text, at + 1) == b'{' {
            return Some((true, &text[at + 2..]));
        }
        escaped = !escaped && byte == b'\\';
    }
    None
}

#[inline]
fn part(opens: bool, goes_on: bool) -> TemplatePart
    ensures { result ≡ spec.part opens goes_on }
{
    match (opens, goes_on) {
        (true, false) => TemplatePart::Whole,
        (true, true) => TemplatePart::Head,
        (false, true) => TemplatePart::Middle,
        (false, false) => TemplatePart::Tail,
    }
}

/// The piece of a template at the front of a text that begins with a backquote or a closing brace.
pub(crate) fn template_at(text: &[u8]) -> Result<(Token<'_>, &[u8]), Fault>
    ensures value { map_ok (λ p. (token_view p.0, p.1.now)) result ≡ spec.template_at text.now }
    ensures shorter { IfOk result (λ p. length p.1.now < length text.now) }
{
    let inner = past_byte(text);
    let (goes_on, rest) = template_rest(inner).ok_or(Fault::Unterminated)?;
    let closing = if goes_on { 2 } else { 1 };
    let len = inner.len() - rest.len() - closing;
    let part = part(first(text) == b'`', goes_on);
    Ok((Token::Template(part, &inner[..len]), rest))
}

/// What is left behind the slash that closes a regular expression.
#[tactic(auto, using(crate::proofs::Bytes::regex_rest_drop, crate::proofs::Bytes::regex_rest_end, std::proofs::lemmas::Grind::common_steps))]
fn regex_rest(text: &[u8]) -> Option<&[u8]>
    ensures value { option_map (λ rest. rest.now) result ≡ spec.regex_rest false false text.now }
    ensures shorter { IfSome result (λ rest. length rest.now < length text.now) }
{
    let mut in_class = false;
    let mut escaped = false;
    'bytes: for at in 0..text.len() {
        let byte = text[at];
        if begins_line_end(&text[at..]) {
            return None;
        }
        if escaped {
            escaped = false;
        } else {
            if byte == b'/' && !in_class {
                return Some(&text[at + 1..]);
            }
            in_class = byte == b'[' || in_class && byte != b']';
            escaped = byte == b'\\';
        }
    }
    None
}

/// What is left behind the flags of a regular expression.
#[tactic(auto, using(crate::proofs::Walks::flags_rest_step, std::proofs::lemmas::Grind::common_steps))]
fn after_flags(text: &[u8]) -> &[u8]
    ensures value { result.now ≡ spec.after_flags text.now }
    ensures within { length result.now ≤ length text.now }
{
    let mut rest = text;
    'flags: for turn in 0..text.len() {
        if !is_name_part(point(rest)) {
            return rest;
        }
        rest = behind(rest);
    }
    rest
}

/// The regular expression at the front of a text that begins with a slash.
pub(crate) fn regex_at(text: &[u8]) -> Result<(Token<'_>, &[u8]), Fault>
    ensures value { map_ok (λ p. (token_view p.0, p.1.now)) result ≡ spec.regex_at text.now }
    ensures shorter { IfOk result (λ p. length p.1.now < length text.now) }
{
    let inner = past_byte(text);
    if first(inner) == b'/' || first(inner) == b'*' {
        return Err(Fault::BadRegex);
    }
    let behind = regex_rest(inner).ok_or(Fault::BadRegex)?;
    let body = &inner[..inner.len() - behind.len() - 1];
    let rest = after_flags(behind);
    let flags = &behind[..behind.len() - rest.len()];
    Ok((Token::Regex(body, flags), rest))
}
