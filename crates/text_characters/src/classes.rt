//! Classes of code points (ECMA-262, 12.2, 12.3 and 12.7).
ghost use Rattle.std.specs.Prelude.{◌≡◌};
ghost use Rattle.text_characters.specs.Characters as spec;

use ucd_derived::{is_id_continue, is_id_start};

fn is_past_ascii_start(point: u32) -> bool
    ensures { result ≡ spec.is_past_ascii_start point }
{
    match char::from_u32(point) {
        Some(character) => is_id_start(character),
        None => false,
    }
}

fn is_past_ascii_part(point: u32) -> bool
    ensures { result ≡ spec.is_past_ascii_part point }
{
    match char::from_u32(point) {
        Some(character) => is_id_continue(character),
        None => false,
    }
}

/// Whether a name may begin with the character.
#[inline]
#[tactic(auto, unfolding(crate::specs::Characters::is_name_start))]
pub fn is_name_start(point: u32) -> bool
    ensures { result ≡ spec.is_name_start point }
{
    match point {
        0x41..=0x5A | 0x61..=0x7A | 0x24 | 0x5F => true,
        0..=0x7F => false,
        _ => is_past_ascii_start(point),
    }
}

/// Whether a name may go on with the character.
#[inline]
#[tactic(auto, unfolding(crate::specs::Characters::is_name_part))]
pub fn is_name_part(point: u32) -> bool
    ensures { result ≡ spec.is_name_part point }
{
    match point {
        0x41..=0x5A | 0x61..=0x7A | 0x30..=0x39 | 0x24 | 0x5F => true,
        0..=0x7F => false,
        0x200C | 0x200D => true,
        _ => is_past_ascii_part(point),
    }
}

/// Whether the character is white space.
#[inline]
#[tactic(auto, unfolding(crate::specs::Characters::is_space))]
pub fn is_space(point: u32) -> bool
    ensures { result ≡ spec.is_space point }
{
    matches!(
        point,
        9 | 11 | 12 | 32 | 0xA0 | 0xFEFF | 0x1680 | 0x3000 | 0x2000..=0x200A | 0x202F | 0x205F
    )
}
