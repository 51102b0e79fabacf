//! Escapes (ECMA-262, 12.7, 12.9.4 and 12.9.6).
ghost use Rattle.std.specs.Prelude.{◌≡◌, ◌<◌, ◌≤◌, ◌+◌, ◌*◌, true, length, drop, option_map, IfSome};
ghost use Rattle.std.specs.Char.{digit_value, is_ascii_digit, is_ascii_hexdigit};
ghost use Rattle.text_characters.specs.Characters.{first as spec_first};
ghost use Rattle.text_strings.specs.Escapes as spec;

use text_characters::{after_line_end, begins_line_end, byte_at, first};

/// How a literal is read.
#[derive(Clone, Copy, Debug, PartialEq, Eq)]
pub enum Reading {
    /// A string; the name of an identifier too, which has no escapes but `\u`.
    Quoted,
    /// A piece of a template, which has no octal escapes.
    Template,
}

/// What an escape or a character of a literal stands for.
#[derive(Clone, Copy, Debug)]
pub enum Unit {
    /// A line continuation.
    Nothing,
    /// One byte of a character that stands for itself, or a control character.
    Byte(u8),
    /// A code point, or half of a pair of UTF-16.
    Point(u32),
}

/// The value of a digit up to 16, of which this is the code.
#[inline]
fn hex_digit(byte: u8) -> u32
    requires { is_ascii_hexdigit byte ≡ true }
    ensures value { result ≡ digit_value byte }
    ensures within { result < 16 }
{
    match byte {
        b'0'..=b'9' => u32::from(byte - b'0'),
        b'a'..=b'f' => u32::from(byte - b'a') + 10,
        b'A'..=b'F' => u32::from(byte - b'A') + 10,
        _ => 0,
    }
}

#[inline]
#[tactic(auto, unfolding(crate::specs::Escapes::two_digits_at))]
fn two_digits(text: &[u8]) -> Option<u32>
    ensures value { result ≡ spec.two_digits_at text.now }
    ensures within { IfSome result (λ value. value < 256) }
    ensures digits { IfSome result (λ _. 2 ≤ length text.now) }
{
    let (high, low) = (first(text), byte_at(text, 1));
    if high.is_ascii_hexdigit() && low.is_ascii_hexdigit() {
        Some(hex_digit(high) * 16 + hex_digit(low))
    } else {
        None
    }
}

/// The value of four digits, and what is left behind them.
fn four_digits(text: &[u8]) -> Option<(u32, &[u8])>
    ensures value { option_map (λ p. (p.0, p.1.now)) result ≡ spec.four_digits_at text.now }
    ensures within { IfSome result (λ p. p.0 < 1114112) }
    ensures shorter { IfSome result (λ p. length p.1.now < length text.now) }
{
    let high = two_digits(text)?;
    let low = two_digits(&text[2..])?;
    Some((high * 256 + low, &text[4..]))
}

/// The value of digits up to a closing brace, and what is left behind that.
#[tactic(auto, using(crate::proofs::Walks::braced_from_drop, crate::proofs::Walks::braced_from_end, std::proofs::lemmas::Grind::common_steps))]
fn braced(text: &[u8]) -> Option<(u32, &[u8])>
    ensures value { option_map (λ p. (p.0, p.1.now)) result ≡ spec.braced_from 0 text.now }
    ensures within { IfSome result (λ p. p.0 < 1114112) }
    ensures shorter { IfSome result (λ p. length p.1.now < length text.now) }
{
    let mut value: u32 = 0;
    'digits: for at in 0..text.len() {
        let byte = text[at];
        if byte.is_ascii_hexdigit() {
            let more = value * 16 + hex_digit(byte);
            if more >= 0x11_0000 {
                return None;
            }
            value = more;
        } else if byte == b'}' {
            return Some((value, &text[at + 1..]));
        } else {
            return None;
        }
    }
    None
}

/// The code point of an escape, of which this is the text behind `\\u`, and what is left behind it.
#[tactic(auto, unfolding(crate::specs::Escapes::unicode_escape))]
pub fn unicode_escape(text: &[u8]) -> Option<(u32, &[u8])>
    ensures value { option_map (λ p. (p.0, p.1.now)) result ≡ spec.unicode_escape text.now }
    ensures within { IfSome result (λ p. p.0 < 1114112) }
    ensures shorter { IfSome result (λ p. length p.1.now < length text.now) }
{
    if first(text) != b'{' {
        return four_digits(text);
    }
    if byte_at(text, 1).is_ascii_hexdigit() {
        braced(&text[1..])
    } else {
        None
    }
}

#[tactic(auto, unfolding(crate::specs::Escapes::byte_escape))]
fn byte_escape(text: &[u8]) -> Option<(Unit, &[u8])>
    ensures value { option_map (λ p. (p.0, p.1.now)) result ≡ spec.byte_escape text.now }
    ensures shorter { IfSome result (λ p. length p.1.now < length text.now) }
{
    let value = two_digits(text)?;
    Some((Unit::Point(value), &text[2..]))
}

#[inline]
fn is_octal(byte: u8) -> bool
    ensures { result ≡ spec.is_octal byte }
{
    matches!(byte, b'0'..=b'7')
}

#[tactic(auto, unfolding(crate::specs::Escapes::octal_escape))]
fn octal_escape(text: &[u8]) -> (Unit, &[u8])
    requires { spec.is_octal (spec_first text.now) ≡ true }
    ensures value { (result.0, result.1.now) ≡ spec.octal_escape text.now }
    ensures shorter { length result.1.now < length text.now }
{
    let (one, two, three) = (first(text), byte_at(text, 1), byte_at(text, 2));
    let high = u32::from(one - b'0');
    if !is_octal(two) {
        return (Unit::Point(high), &text[1..]);
    }
    let pair = high * 8 + u32::from(two - b'0');
    if one < b'4' && is_octal(three) {
        (Unit::Point(pair * 8 + u32::from(three - b'0')), &text[3..])
    } else {
        (Unit::Point(pair), &text[2..])
    }
}

#[tactic(auto, unfolding(crate::specs::Escapes::digit_escape))]
fn digit_escape(reading: Reading, text: &[u8]) -> Option<(Unit, &[u8])>
    requires { is_ascii_digit (spec_first text.now) ≡ true }
    ensures value { option_map (λ p. (p.0, p.1.now)) result ≡ spec.digit_escape reading text.now }
    ensures shorter { IfSome result (λ p. length p.1.now < length text.now) }
{
    let digit = first(text);
    match reading {
        Reading::Quoted if is_octal(digit) => Some(octal_escape(text)),
        Reading::Quoted => Some((Unit::Byte(digit), &text[1..])),
        Reading::Template if digit == b'0' && !byte_at(text, 1).is_ascii_digit() => {
            Some((Unit::Point(0), &text[1..]))
        }
        Reading::Template => None,
    }
}

/// The character of an escape of one letter.
#[inline]
fn letter(byte: u8) -> u8
    ensures { result ≡ spec.letter byte }
{
    match byte {
        b'b' => 8,
        b't' => 9,
        b'n' => 10,
        b'v' => 11,
        b'f' => 12,
        b'r' => 13,
        _ => byte,
    }
}

fn unicode_unit(text: &[u8]) -> Option<(Unit, &[u8])>
    ensures value { option_map (λ p. (p.0, p.1.now)) result ≡ spec.of_point (spec.unicode_escape text.now) }
    ensures shorter { IfSome result (λ p. length p.1.now < length text.now) }
{
    let (point, rest) = unicode_escape(text)?;
    Some((Unit::Point(point), rest))
}

#[tactic(auto, unfolding(crate::specs::Escapes::escape))]
fn escape(reading: Reading, text: &[u8]) -> Option<(Unit, &[u8])>
    ensures value { option_map (λ p. (p.0, p.1.now)) result ≡ spec.escape reading text.now }
    ensures within { IfSome result (λ p. length p.1.now ≤ length text.now) }
{
    let [byte, rest @ ..] = text else {
        return None;
    };
    if *byte == b'u' {
        unicode_unit(rest)
    } else if *byte == b'x' {
        byte_escape(rest)
    } else if byte.is_ascii_digit() {
        digit_escape(reading, text)
    } else if begins_line_end(text) {
        Some((Unit::Nothing, after_line_end(text)))
    } else {
        Some((Unit::Byte(letter(*byte)), rest))
    }
}

/// What a text begins with: an escape, a line continuation or one byte of a character, and what is left
/// behind it: nothing where it is empty. In a template a carriage return, with the line feed behind it, counts as a line feed. A bad escape is none.
#[inline]
#[tactic(auto, unfolding(crate::specs::Escapes::next_unit))]
pub fn next_unit(reading: Reading, text: &[u8]) -> Option<(Unit, &[u8])>
    ensures value { option_map (λ p. (p.0, p.1.now)) result ≡ spec.next_unit reading text.now }
    ensures shorter { IfSome result (λ p. length p.1.now < length text.now) }
{
    let [byte, rest @ ..] = text else {
        return None;
    };
    if *byte == b'\\' {
        escape(reading, rest)
    } else if reading == Reading::Template && *byte == b'\r' {
        Some((Unit::Byte(b'\n'), after_line_end(text)))
    } else {
        Some((Unit::Byte(*byte), rest))
    }
}
