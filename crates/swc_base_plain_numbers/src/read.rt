//! Reading number literals (ECMA-262, 12.9.3).
ghost use Rattle.std.specs.Prelude.{◌≡◌, ◌<◌, ◌≤◌, ◌^◌, option_map, IfOk, IfSome, OnOk};
ghost use Rattle.swc_base_plain_numbers.specs.Numbers.{decimal_in as is_decimal_in, exponent_in as is_exponent_in, HasDigits, in_base as is_in_base, integer_in as is_integer_in, number_in as is_number_in, power_in as is_power_in, seen, significand as is_significand, with_point as is_with_point, cut as is_cut};

use crate::digits::{are_digits, cut, text_from, value_in};
use std::alloc::{AllocError, Global};

/// A power of ten: by how many digits are multiplied and divided.
#[derive(Clone, Copy)]
pub struct Scale {
    pub up: u64,
    pub down: u64,
}

/// A number: decimal digits, multiplied or divided by a power of ten.
#[derive(Drop)]
pub struct Number {
    pub digits: Vec<u8>,
    pub scale: Scale,
}

// The base and the digits of an integer that is not decimal. One that begins with `0` and has no digit above 7 is octal (B.1.1).
fn in_base(text: &[u8]) -> Option<(u32, &[u8])>
    ensures value { option_map (λ p. (p.0, p.1.now)) result ≡ is_in_base text.now }
    ensures base { IfSome result (λ p. (2 ≤ p.0) × (p.0 ≤ 36)) }
{
    if text.starts_with(b"0x") {
        return Some((16, text_from(2, text)));
    }
    if text.starts_with(b"0o") {
        return Some((8, text_from(2, text)));
    }
    if text.starts_with(b"0b") {
        return Some((2, text_from(2, text)));
    }
    if text.starts_with(b"0") && are_digits(8, text) {
        return Some((8, text));
    }
    None
}

// An exponent below 2^32.
fn power_in(text: &[u8]) -> Option<u64>
    ensures value { result ≡ is_power_in text.now }
    ensures bound { IfSome result (λ n. n < 2 ^ 32) }
{
    let value = value_in(10, text)?;
    if value < 1 << 32 {
        Some(value as u64)
    } else {
        None
    }
}

// The power of ten that an exponent is.
fn exponent_in(text: &[u8]) -> Option<Scale>
    ensures value { result ≡ is_exponent_in text.now }
    ensures bound { IfSome result (λ s. (s.up < 2 ^ 32) × (s.down < 2 ^ 32)) }
{
    if text.starts_with(b"-") {
        let down = power_in(text_from(1, text))?;
        return Some(Scale { up: 0, down });
    }
    let digits = if text.starts_with(b"+") {
        text_from(1, text)
    } else {
        text
    };
    let up = power_in(digits)?;
    Some(Scale { up, down: 0 })
}

// The digits before and behind a point.
fn with_point(text: &[u8]) -> (&[u8], &[u8])
    ensures { (result.0.now, result.1.now) ≡ is_with_point text.now (is_cut 46 text.now) }
{
    match cut(b'.', text) {
        Some(parts) => parts,
        None => (text, &[]),
    }
}

// Digits with a point, at a scale.
#[tactic(auto, using(crate::proofs::Values::all_digits))]
fn significand(alloc: Global, text: &[u8], scale: Scale) -> Result<Option<Number>, AllocError>
    requires { scale.down < 2 ^ 32 }
    ensures value { IfOk result (λ found. option_map seen found ≡ is_significand text.now scale) }
    ensures digits { IfOk result (λ found. IfSome found HasDigits) }
    ensures up { IfOk result (λ found. IfSome found (λ n. n.scale.up ≡ scale.up)) }
{
    let (whole, fraction) = with_point(text);
    let mut digits = Vec::with_capacity(alloc, text.len())?;
    digits.extend_from_slice(whole)?;
    digits.extend_from_slice(fraction)?;
    if !are_digits(10, digits.as_slice()) {
        return Ok(None);
    }
    let scale = Scale {
        up: scale.up,
        down: scale.down + fraction.len() as u64,
    };
    Ok(Some(Number { digits, scale }))
}

// A decimal literal.
fn decimal_in(alloc: Global, text: &[u8]) -> Result<Option<Number>, AllocError>
    ensures value { IfOk result (λ found. option_map seen found ≡ is_decimal_in text.now) }
    ensures digits { IfOk result (λ found. IfSome found HasDigits) }
    ensures up { IfOk result (λ found. IfSome found (λ n. n.scale.up < 2 ^ 32)) }
{
    let Some((digits, exponent)) = cut(b'e', text) else {
        return significand(alloc, text, Scale { up: 0, down: 0 });
    };
    let Some(scale) = exponent_in(exponent) else {
        return Ok(None);
    };
    significand(alloc, digits, scale)
}

// An integer in a base.
#[tactic(auto, using(crate::proofs::Values::decimal_digits))]
fn integer_in(alloc: Global, base: u32, text: &[u8]) -> Result<Option<Number>, AllocError>
    requires low { 2 ≤ base }
    requires high { base ≤ 36 }
    ensures value { IfOk result (λ found. option_map seen found ≡ is_integer_in (base, text.now)) }
    ensures digits { IfOk result (λ found. IfSome found HasDigits) }
    ensures up { IfOk result (λ found. IfSome found (λ n. n.scale.up < 2 ^ 32)) }
{
    let Some(value) = value_in(base, text) else {
        return Ok(None);
    };
    let digits = String::format(alloc, value)?;
    Ok(Some(Number {
        digits: digits.into_bytes(),
        scale: Scale { up: 0, down: 0 },
    }))
}

/// What a bare text is the literal of, if it is one; of integers that are not decimal those below 2^128.
///
/// # Errors
///
/// Where memory was refused.
pub fn number_in(alloc: Global, text: &[u8]) -> Result<Option<Number>, AllocError>
    ensures value { IfOk result (λ found. option_map seen found ≡ is_number_in text.now) }
    ensures digits { IfOk result (λ found. IfSome found HasDigits) }
    ensures up { IfOk result (λ found. IfSome found (λ n. n.scale.up < 2 ^ 32)) }
{
    match in_base(text) {
        Some((base, digits)) => integer_in(alloc, base, digits),
        None => decimal_in(alloc, text),
    }
}
