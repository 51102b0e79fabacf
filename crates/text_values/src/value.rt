//! Values of strings and templates (ECMA-262, 12.9.4.2 and 12.9.6.1).
ghost use Rattle.std.specs.Prelude.{◌≡◌, ◌<◌, ◌≤◌, length, is_some, option_map, IfSome, Ok, Err, IfOk, if◌then◌else◌, ◌==◌, ◌&&◌};
ghost use Rattle.text_values.specs.Values as spec;
ghost use Rattle.text_values.specs.Steps as steps;
ghost use Rattle.text_values.specs.declared.value.Flaw.{Flaw};
ghost use Rattle.text_values.specs.declared.value.Flaw.TheVariants as flaw;
ghost use Rattle.text_values.specs.declared.value.CookError.TheVariants as cook_error;

use std::alloc::{AllocError, Global};
use text_strings::{Reading, Unit, next_unit};

/// Why a literal has no value in UTF-8.
#[derive(Clone, Copy)]
pub enum Flaw {
    /// An escape is none.
    BadEscape,
    /// Half of a pair of UTF-16 stands alone.
    HalfSurrogate,
}

/// Whether each escape of a literal's text is one.
#[tactic(auto, using(crate::proofs::Units::good_step, std::proofs::lemmas::Grind::common_steps))]
pub fn has_good_escapes(reading: Reading, text: &[u8]) -> bool
    ensures { result ≡ is_some (spec.units reading text.now) }
{
    let mut rest = text;
    'units: for turn in 0..text.len() {
        if rest.is_empty() {
            return true;
        }
        match next_unit(reading, rest) {
            Some((_, behind)) => rest = behind,
            None => return false,
        }
    }
    true
}

#[inline]
fn is_lead(point: u32) -> bool
    ensures { result ≡ spec.is_lead point }
{
    matches!(point, 0xD800..=0xDBFF)
}

#[inline]
fn is_trail(point: u32) -> bool
    ensures { result ≡ spec.is_trail point }
{
    matches!(point, 0xDC00..=0xDFFF)
}

/// Writes a character in UTF-8; `None` where the code point is none.
fn write_point(point: u32, buffer: &mut [u8; 4]) -> Option<&[u8]>
    ensures { option_map (λ bytes. bytes.now) result ≡ spec.of_scalar point }
{
    let character = char::from_u32(point)?;
    Some(character.encode_utf8(buffer).as_bytes())
}

/// The bytes that a unit adds behind the first half of a pair of UTF-16 (or behind none, which is 0), and the half that it
/// leaves. `None` where half of a pair stands alone.
#[tactic(auto, using(crate::proofs::Units::take_one_set, std::proofs::lemmas::Grind::common_steps), unfolding(crate::specs::Values::joined))]
fn join(half: u32, unit: Unit, buffer: &mut [u8; 4]) -> Option<(&[u8], u32)>
    ensures { option_map (λ p. (p.0.now, p.1)) result ≡ spec.joined half unit }
{
    match unit {
        Unit::Nothing => Some((&[], half)),
        Unit::Byte(byte) => {
            if half != 0 {
                return None;
            }
            buffer[0] = byte;
            Some((&buffer[..1], 0))
        }
        Unit::Point(point) => {
            if half == 0 {
                if is_lead(point) {
                    return Some((&[], point));
                }
                let bytes = write_point(point, buffer)?;
                return Some((bytes, 0));
            }
            if !is_trail(point) {
                return None;
            }
            let bytes = write_point(half % 1024 * 1024 + point % 1024 + 0x1_0000, buffer)?;
            Some((bytes, 0))
        }
    }
}

/// The bytes of the first unit of a literal behind the first half of a pair, the half that it leaves, and what is left behind
/// it. `None` where half of a pair stands alone, or an escape is none.
fn next_bytes<'b, 't>(
    reading: Reading,
    half: u32,
    text: &'t [u8],
    buffer: &'b mut [u8; 4],
) -> Option<(&'b [u8], u32, &'t [u8])>
    ensures { option_map (λ p. (p.0.now, (p.1, p.2.now))) result ≡ steps.next_bytes reading half text.now }
{
    let (unit, rest) = next_unit(reading, text)?;
    let (bytes, now_half) = join(half, unit, buffer)?;
    Some((bytes, now_half, rest))
}

/// Past one unit of a literal and its bytes of a value: the half that is left, and what is left of both.
fn past_unit<'t, 'v>(
    reading: Reading,
    half: u32,
    text: &'t [u8],
    value: &'v [u8],
) -> Option<(u32, &'t [u8], &'v [u8])>
    ensures { option_map (λ p. (p.0, (p.1.now, p.2.now))) result ≡ steps.past_unit reading half text.now value.now }
{
    let mut buffer = [0; 4];
    let (bytes, now_half, rest) = next_bytes(reading, half, text, &mut buffer)?;
    if value.starts_with(bytes) {
        Some((now_half, rest, &value[bytes.len()..]))
    } else {
        None
    }
}

/// Whether neither half of a pair nor a byte of a value is left.
#[inline]
fn is_done(half: u32, left: &[u8]) -> bool
    ensures { result ≡ (half == 0 && length left.now == 0) }
{
    half == 0 && left.is_empty()
}

/// Whether a literal's text stands for itself: no escape stands in it, and no carriage return, which may be read as a line feed.
fn is_plain(text: &[u8]) -> bool
    ensures { result ≡ steps.is_plain text.now }
{
    !text.contains(&b'\\') && !text.contains(&b'\r')
}

/// Whether a literal's text stands for these bytes, a unit at a time.
fn reads_as(reading: Reading, text: &[u8], value: &[u8]) -> bool
    ensures { result ≡ spec.is_value (spec.cooked reading text.now) value.now }
{
    let mut half: u32 = 0;
    let mut rest = text;
    let mut left = value;
    'units: for turn in 0..text.len() {
        if rest.is_empty() {
            return is_done(half, left);
        }
        match past_unit(reading, half, rest, left) {
            Some((now_half, behind, now_left)) => {
                half = now_half;
                rest = behind;
                left = now_left;
            }
            None => return false,
        }
    }
    is_done(half, left)
}

/// Whether a literal's text without its quotes stands for these bytes of UTF-8.
#[tactic(auto, using(crate::proofs::Plain::plain_value, std::proofs::lemmas::Grind::common_steps))]
pub fn cooks_to(reading: Reading, text: &[u8], value: &[u8]) -> bool
    ensures { result ≡ spec.is_value (spec.cooked reading text.now) value.now }
{
    if is_plain(text) {
        text == value
    } else {
        reads_as(reading, text, value)
    }
}

/// Why a value is not made.
#[derive(Clone, Copy)]
pub enum CookError {
    NoMemory,
    Flawed(Flaw),
}

impl From<AllocError> for CookError {
    ghost from_gives = { λ _ e. e ≡ cook_error.NoMemory };

    fn from(_: AllocError) -> CookError {
        CookError::NoMemory
    }
}

impl CookError {
    /// A word for the error.
    pub fn name(&self) -> &'static str {
        match self {
            CookError::NoMemory => "no memory",
            CookError::Flawed(Flaw::BadEscape) => "bad escape",
            CookError::Flawed(Flaw::HalfSurrogate) => "half surrogate",
        }
    }
}

/// What a literal's text without its quotes stands for, in UTF-8.
pub fn cook(alloc: Global, reading: Reading, text: &[u8]) -> Result<Vec<u8>, CookError>
    ensures read { IfOk result (λ value. spec.cooked reading text.now ≡ Ok value.items) }
    ensures flawed { (flaw : Flaw) → result ≡ Err (cook_error.Flawed flaw) → spec.cooked reading text.now ≡ Err flaw }
{
    if !has_good_escapes(reading, text) {
        return Err(CookError::Flawed(Flaw::BadEscape));
    }
    let mut buffer = [0; 4];
    let mut half: u32 = 0;
    let mut rest = text;
    let mut value = Vec::new(alloc);
    'units: for turn in 0..text.len() {
        if rest.is_empty() {
            let read = finished(half, value);
            return read;
        }
        match next_bytes(reading, half, rest, &mut buffer) {
            Some((bytes, now_half, behind)) => {
                value.extend_from_slice(bytes)?;
                half = now_half;
                rest = behind;
            }
            None => return Err(CookError::Flawed(Flaw::HalfSurrogate)),
        }
    }
    let whole = finished(half, value);
    whole
}

/// A value that is read, if it does not end in half of a pair.
fn finished(half: u32, value: Vec<u8>) -> Result<Vec<u8>, CookError>
    ensures { result ≡ (if half == 0 then Ok value else Err (cook_error.Flawed flaw.HalfSurrogate)) }
{
    if half == 0 {
        Ok(value)
    } else {
        Err(CookError::Flawed(Flaw::HalfSurrogate))
    }
}
