//! Digits in a base, and a text before and behind a character.
ghost use Rattle.std.specs.Prelude.{◌≡◌, ◌+◌, ◌^◌, ◌<◌, ◌≤◌, drop, not, option_map, position, true, IfOk, IfSome, SomeIff, length, nat_eq};
ghost use Rattle.std.specs.List.{list_all, suffix_len};
ghost use Rattle.std.specs.Str.Parse.{digits_value};
ghost use Rattle.swc_base_plain_numbers.specs.Numbers.{are_digits as consists_of_digits, bare as is_bare, cut as is_cut, is_digit as is_digit_in, value_in as is_value_in};

use std::alloc::{AllocError, Global};

/// A text in small letters, without the separators between digits.
///
/// # Errors
///
/// Where memory was refused.
pub fn bare(alloc: Global, text: &[u8]) -> Result<Vec<u8>, AllocError>
    ensures { IfOk result (λ bytes. bytes.items ≡ is_bare text.now) }
{
    let mut bytes = Vec::with_capacity(alloc, text.len())?;
    for byte in text {
        if *byte != b'_' {
            bytes.push(byte.to_ascii_lowercase())?;
        }
    }
    Ok(bytes)
}

// Whether a byte is a digit of a base.
fn is_digit(base: u32, byte: u8) -> bool
    requires low { 2 ≤ base }
    requires high { base ≤ 36 }
    ensures { result ≡ is_digit_in base byte }
{
    char::from(byte).to_digit(base).is_some()
}

fn all_digits(base: u32, text: &[u8]) -> bool
    requires low { 2 ≤ base }
    requires high { base ≤ 36 }
    ensures { result ≡ list_all (is_digit_in base) text.now }
{
    text.iter().all(|byte| is_digit(base, *byte))
}

/// Whether a text is at least one digit of a base, and no other character.
pub fn are_digits(base: u32, text: &[u8]) -> bool
    requires low { 2 ≤ base }
    requires high { base ≤ 36 }
    ensures { result ≡ consists_of_digits base text.now }
{
    !text.is_empty() && all_digits(base, text)
}

// The value of digits, if it is below 2^128.
#[tactic(auto, using(crate::proofs::Values::valuing))]
fn value_of(base: u32, digits: &[u8]) -> Option<u128>
    requires low { 2 ≤ base }
    requires high { base ≤ 36 }
    requires digits { list_all (is_digit_in base) digits.now ≡ true }
    ensures { SomeIff result (digits_value base digits.now < 2 ^ 128) (digits_value base digits.now) }
{
    let mut value: u128 = 0;
    for byte in digits {
        let digit = char::from(*byte).to_digit(base)?;
        value = value.checked_mul(base as u128)?.checked_add(digit as u128)?;
    }
    Some(value)
}

/// The value of a text of digits, if it is one and its value is below 2^128.
#[tactic(auto, using(crate::proofs::Values::valued))]
pub fn value_in(base: u32, text: &[u8]) -> Option<u128>
    requires low { 2 ≤ base }
    requires high { base ≤ 36 }
    ensures { result ≡ is_value_in base text.now }
{
    if are_digits(base, text) {
        value_of(base, text)
    } else {
        None
    }
}

fn index_of(character: u8, text: &[u8]) -> Option<usize>
    ensures value { result ≡ position (λ c. nat_eq c character) text.now }
    ensures within { IfSome result (λ i. i < length text.now) }
{
    text.iter().position(|byte| *byte == character)
}

/// The index of the first character that is another.
pub fn index_of_other(character: u8, text: &[u8]) -> Option<usize>
    ensures value { result ≡ position (λ c. not (nat_eq c character)) text.now }
    ensures within { IfSome result (λ i. i < length text.now) }
{
    text.iter().position(|byte| *byte != character)
}

/// A text from an index on.
#[tactic(auto, using(crate::proofs::Values::rest_is))]
pub fn text_from(index: usize, text: &[u8]) -> &[u8]
    requires { index ≤ length text.now }
    ensures { result.now ≡ drop index text.now }
{
    &text[index..]
}

/// A text before and behind the first of a character, if it is there.
#[tactic(auto, using(crate::proofs::Values::cut_at))]
pub fn cut(character: u8, text: &[u8]) -> Option<(&[u8], &[u8])>
    ensures { option_map (λ p. (p.0.now, p.1.now)) result ≡ is_cut character text.now }
{
    match index_of(character, text) {
        Some(index) => Some((&text[..index], text_from(index + 1, text))),
        None => None,
    }
}

/// How long a text is without a character that stands at its end, as often as it does.
pub fn length_without(character: u8, text: &[u8]) -> usize
    ensures { result + suffix_len (λ c. nat_eq c character) text.now ≡ length text.now }
{
    let mut length = text.len();
    while length > 0 && text[length - 1] == character {
        length -= 1;
    }
    length
}
