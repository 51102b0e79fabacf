//! Numbers (ECMA-262, 12.9.3).
ghost use Rattle.std.specs.Prelude.{◌≡◌, ◌<◌, ◌≤◌, true, length, option_map, IfSome, IfOk};
ghost use Rattle.std.specs.List.{prefix_len};
ghost use Rattle.text_lexer.specs.Numbers as spec;
ghost use Rattle.text_lexer.specs.Digits.{passes};
ghost use Rattle.text_lexer.specs.Tokens.{token_view, map_ok};

use crate::name::begins_name;
use crate::token::{Fault, Token};
use text_characters::{byte_at, first, past_byte};

/// The digits of a number.
#[derive(Clone, Copy)]
pub(crate) enum Digits {
    Binary,
    Octal,
    Decimal,
    Hex,
}

#[inline(always)]
fn is_digit(digits: Digits, byte: u8) -> bool
    ensures { result ≡ passes digits byte }
{
    match digits {
        Digits::Binary => byte == b'0' || byte == b'1',
        Digits::Octal => matches!(byte, b'0'..=b'7'),
        Digits::Decimal => byte.is_ascii_digit(),
        Digits::Hex => byte.is_ascii_hexdigit(),
    }
}

/// Whether a number begins here.
#[inline]
pub(crate) fn begins_number(text: &[u8]) -> bool
    ensures { result ≡ spec.begins_number text.now }
{
    first(text).is_ascii_digit() || first(text) == b'.' && byte_at(text, 1).is_ascii_digit()
}

/// What is left behind digits, between two of which a separator may stand.
#[inline]
#[tactic(auto, using(crate::proofs::Bytes::after_digits_drop, crate::proofs::Bytes::after_digits_end, std::proofs::lemmas::Grind::common_steps))]
fn after_digits(text: &[u8], digits: Digits) -> &[u8]
    ensures value { result.now ≡ spec.after_digits (passes digits) text.now }
    ensures within { length result.now ≤ length text.now }
{
    'digits: for at in 0..text.len() {
        let byte = text[at];
        let separates = byte == b'_' && is_digit(digits, byte_at(text, at + 1));
        if !is_digit(digits, byte) && !separates {
            return &text[at..];
        }
    }
    &text[text.len()..]
}

/// How many digits stand at the front, with nothing between them.
#[inline]
fn run_len(text: &[u8], digits: Digits) -> usize
    ensures len { result ≡ prefix_len (passes digits) text.now }
    ensures within { result ≤ length text.now }
{
    text.iter()
        .take_while(|byte| is_digit(digits, **byte))
        .count()
}

/// What is left behind digits alone.
#[inline]
fn after_run(text: &[u8], digits: Digits) -> &[u8]
    ensures value { result.now ≡ spec.after_run (passes digits) text.now }
    ensures within { length result.now ≤ length text.now }
{
    &text[run_len(text, digits)..]
}

fn after_fraction(text: &[u8]) -> &[u8]
    ensures value { result.now ≡ spec.after_fraction text.now }
    ensures within { length result.now ≤ length text.now }
{
    if first(text) != b'.' {
        text
    } else if byte_at(text, 1).is_ascii_digit() {
        after_digits(&text[1..], Digits::Decimal)
    } else {
        &text[1..]
    }
}

fn after_sign(text: &[u8]) -> &[u8]
    ensures value { result.now ≡ spec.after_sign text.now }
    ensures within { length result.now ≤ length text.now }
{
    if first(text) == b'+' || first(text) == b'-' {
        &text[1..]
    } else {
        text
    }
}

fn after_exponent(text: &[u8]) -> &[u8]
    ensures value { result.now ≡ spec.after_exponent text.now }
    ensures within { length result.now ≤ length text.now }
{
    if first(text) != b'e' && first(text) != b'E' {
        return text;
    }
    let digits = after_sign(&text[1..]);
    if first(digits).is_ascii_digit() {
        after_digits(digits, Digits::Decimal)
    } else {
        text
    }
}

/// What is left behind a decimal number of which the integer is read, and whether it is a big integer.
#[tactic(auto, unfolding(crate::specs::Numbers::decimal_rest))]
fn decimal_rest(rest: &[u8]) -> (bool, &[u8])
    ensures value { (result.0, result.1.now) ≡ spec.decimal_rest rest.now }
    ensures within { length result.1.now ≤ length rest.now }
{
    if first(rest) == b'n' {
        (true, &rest[1..])
    } else {
        (false, after_exponent(after_fraction(rest)))
    }
}

/// The same behind the letter of a radix.
#[tactic(auto, unfolding(crate::specs::Numbers::radix_rest))]
fn radix_rest(text: &[u8], digits: Digits) -> Option<(bool, &[u8])>
    ensures value { option_map (λ p. (p.0, p.1.now)) result ≡ spec.radix_rest (passes digits) text.now }
    ensures within { IfSome result (λ p. length p.1.now ≤ length text.now) }
{
    if !is_digit(digits, first(text)) {
        return None;
    }
    let rest = after_digits(text, digits);
    if first(rest) == b'n' {
        Some((true, &rest[1..]))
    } else {
        Some((false, rest))
    }
}

/// The same of digits behind a zero: octal ones, or a decimal number.
#[tactic(auto, unfolding(crate::specs::Numbers::legacy_rest))]
fn legacy_rest(text: &[u8]) -> &[u8]
    ensures value { result.now ≡ spec.legacy_rest text.now }
    ensures within { length result.now ≤ length text.now }
{
    let octal = after_run(text, Digits::Octal);
    if first(octal).is_ascii_digit() {
        after_exponent(after_fraction(after_run(text, Digits::Decimal)))
    } else {
        octal
    }
}

/// The same of a number that begins with a zero.
#[tactic(auto, unfolding(crate::specs::Numbers::zero_rest))]
fn zero_rest(text: &[u8]) -> Option<(bool, &[u8])>
    ensures value { option_map (λ p. (p.0, p.1.now)) result ≡ spec.zero_rest text.now }
    ensures within { IfSome result (λ p. length p.1.now ≤ length text.now) }
    ensures shorter { 0 < length text.now → IfSome result (λ p. length p.1.now < length text.now) }
{
    match byte_at(text, 1) {
        b'x' | b'X' => radix_rest(&text[2..], Digits::Hex),
        b'o' | b'O' => radix_rest(&text[2..], Digits::Octal),
        b'b' | b'B' => radix_rest(&text[2..], Digits::Binary),
        b'0'..=b'9' => Some((false, legacy_rest(past_byte(text)))),
        _ => Some(decimal_rest(past_byte(text))),
    }
}

/// What is left behind the number at the front of a text, and whether it is a big integer.
#[tactic(auto, unfolding(crate::specs::Numbers::number_rest))]
fn number_rest(text: &[u8]) -> Option<(bool, &[u8])>
    ensures value { option_map (λ p. (p.0, p.1.now)) result ≡ spec.number_rest text.now }
    ensures within { IfSome result (λ p. length p.1.now ≤ length text.now) }
    ensures shorter { 0 < length text.now → IfSome result (λ p. length p.1.now < length text.now) }
{
    match first(text) {
        b'0' => zero_rest(text),
        b'.' => Some((
            false,
            after_exponent(after_digits(past_byte(text), Digits::Decimal)),
        )),
        _ => Some(decimal_rest(after_digits(past_byte(text), Digits::Decimal))),
    }
}

/// Whether no name and no digit stands right behind a number.
fn ends_number(rest: &[u8]) -> bool
    ensures { result ≡ spec.ends_number rest.now }
{
    !begins_name(rest) && !first(rest).is_ascii_digit()
}

/// The number at the front of a text that begins with one.
pub(crate) fn number_at(text: &[u8]) -> Result<(Token<'_>, &[u8]), Fault>
    ensures value { map_ok (λ p. (token_view p.0, p.1.now)) result ≡ spec.number_at text.now }
    ensures shorter { 0 < length text.now → IfOk result (λ p. length p.1.now < length text.now) }
{
    let (big, rest) = number_rest(text).ok_or(Fault::BadNumber)?;
    if !ends_number(rest) {
        return Err(Fault::BadNumber);
    }
    let number = &text[..text.len() - rest.len()];
    if big {
        Ok((Token::BigInt(number), rest))
    } else {
        Ok((Token::Number(number), rest))
    }
}
