//! The one text of a number.
ghost use Rattle.std.specs.Prelude.{◌≡◌, ◌<◌, ◌^◌, ◌++◌, IfOk, OnOk, string_bytes, true};
ghost use Rattle.std.specs.List.{list_all};
ghost use Rattle.swc_base_plain_numbers.specs.Numbers.{HasDigits, is_digit, number_in as is_number_in, plain_big as is_plain_big, plain_number as is_plain_number, power as is_power, scientific as is_scientific, seen, text_of as is_text_of, text_or as is_text_or, without_suffix as is_without_suffix};

use crate::digits::{bare, index_of_other, length_without, text_from};
use crate::read::{Number, Scale, number_in};
use std::alloc::{AllocError, Global};

// Appends a power of ten.
fn push_power(text: &mut String, scale: Scale) -> Result<(), AllocError>
    ensures { OnOk result (string_bytes text.new ≡ string_bytes text.old ++ is_power scale.up scale.down) }
{
    if scale.up < scale.down {
        text.push('-')?;
        text.write(scale.down - scale.up)
    } else {
        text.write(scale.up - scale.down)
    }
}

// Digits that begin with no zero, without the zeros at their end, and the power of ten.
#[tactic(auto, using(crate::proofs::Values::text_of_digits))]
fn scientific(alloc: Global, digits: &[u8], scale: Scale) -> Result<String, AllocError>
    requires up { scale.up < 2 ^ 32 }
    requires digits { list_all (is_digit 10) digits.now ≡ true }
    ensures { IfOk result (λ text. string_bytes text ≡ is_scientific digits.now scale) }
{
    let length = length_without(b'0', digits);
    let mut text = String::from_utf8_lossy(alloc, &digits[..length])?;
    text.push('e')?;
    let zeros = (digits.len() - length) as u64;
    let scale = Scale {
        up: scale.up + zeros,
        down: scale.down,
    };
    push_power(&mut text, scale)?;
    Ok(text)
}

// The text of a number.
#[tactic(auto, using(crate::proofs::Values::digits_behind))]
fn text_of(alloc: Global, number: &Number) -> Result<String, AllocError>
    requires up { number.now.scale.up < 2 ^ 32 }
    requires digits { HasDigits number.now }
    ensures { IfOk result (λ text. string_bytes text ≡ is_text_of (seen number.now)) }
{
    let digits = number.digits.as_slice();
    match index_of_other(b'0', digits) {
        Some(first) => scientific(alloc, text_from(first, digits), number.scale),
        None => String::from_str(alloc, "0"),
    }
}

// The text of the number that a bare text is the literal of; else the text itself.
fn text_or(alloc: Global, text: &str, bare: &[u8]) -> Result<String, AllocError>
    ensures { IfOk result (λ plain. string_bytes plain ≡ is_text_or text.now (is_number_in bare.now)) }
{
    match number_in(alloc, bare)? {
        Some(number) => text_of(alloc, &number),
        None => String::from_str(alloc, text),
    }
}

/// The plain text of a number literal. What is no literal stays as it is.
///
/// # Errors
///
/// Where memory was refused.
pub fn plain_number(alloc: Global, text: &str) -> Result<String, AllocError>
    ensures { IfOk result (λ plain. string_bytes plain ≡ is_plain_number text.now) }
{
    let bytes = bare(alloc, text.as_bytes())?;
    text_or(alloc, text, bytes.as_slice())
}

// A big integer without the `n` at its end.
fn without_suffix(text: &[u8]) -> &[u8]
    ensures { result.now ≡ is_without_suffix text.now }
{
    match text.strip_suffix(b"n") {
        Some(digits) => digits,
        None => text,
    }
}

/// The plain text of a big integer, whether it is written with its `n` or without. What is none stays as it is.
///
/// # Errors
///
/// Where memory was refused.
pub fn plain_big(alloc: Global, text: &str) -> Result<String, AllocError>
    ensures { IfOk result (λ plain. string_bytes plain ≡ is_plain_big text.now) }
{
    let bytes = bare(alloc, text.as_bytes())?;
    text_or(alloc, text, without_suffix(bytes.as_slice()))
}
