//! The texts of templates as they are written (ECMA-262, 12.9.6.2).
ghost use Rattle.std.specs.Prelude.{◌≡◌, ◌++◌, IfOk, OnOk, bytes_eq, option_map, option_to_list};
ghost use Rattle.text_values.specs.Values as spec;

use std::alloc::{AllocError, Global};
use text_characters::byte_at;

/// What a byte of a template, with the byte behind it, is in `raw`: a carriage return is a line feed, and nothing before one.
#[inline(always)]
fn raw_byte(byte: u8, next: u8) -> Option<u8>
    ensures { result ≡ spec.raw_byte byte next }
{
    if byte != b'\r' {
        Some(byte)
    } else if next == b'\n' {
        None
    } else {
        Some(b'\n')
    }
}

/// Whether a text begins with the byte, if one is given; what is left behind it.
#[inline(always)]
fn past_raw(left: &[u8], byte: Option<u8>) -> Option<&[u8]>
    ensures { option_map (λ rest. rest.now) result ≡ spec.past_raw left.now byte }
{
    let Some(byte) = byte else {
        return Some(left);
    };
    match left {
        [first, rest @ ..] if *first == byte => Some(rest),
        _ => None,
    }
}

/// Whether a piece of a template is written so in `raw`.
pub fn raw_is(text: &[u8], raw: &[u8]) -> bool
    ensures { result ≡ bytes_eq (spec.template_raw text.now) raw.now }
{
    let mut left = raw;
    'bytes: for at in 0..text.len() {
        match past_raw(left, raw_byte(text[at], byte_at(text, at + 1))) {
            Some(rest) => left = rest,
            None => return false,
        }
    }
    left.is_empty()
}

/// Adds a byte, if one is given.
fn push_raw(raw: &mut Vec<u8>, byte: Option<u8>) -> Result<(), AllocError>
    ensures { OnOk result (raw.new.items ≡ raw.old.items ++ option_to_list byte) }
{
    match byte {
        Some(byte) => raw.extend_from_slice(&[byte]),
        None => Ok(()),
    }
}

/// The `raw` of a piece of a template.
#[tactic(auto, using(crate::proofs::RawBytes::template_raw_drop, crate::proofs::RawBytes::template_raw_end, std::proofs::lemmas::Grind::common_steps))]
pub fn make_raw(alloc: Global, text: &[u8]) -> Result<Vec<u8>, AllocError>
    ensures { IfOk result (λ raw. raw.items ≡ spec.template_raw text.now) }
{
    let mut raw = Vec::new(alloc);
    'bytes: for at in 0..text.len() {
        push_raw(&mut raw, raw_byte(text[at], byte_at(text, at + 1)))?;
    }
    Ok(raw)
}
