//! Characters in UTF-8.
ghost use Rattle.std.specs.Prelude.{◌≡◌, ◌<◌, ◌≤◌, ◌+◌, length, drop, slice_index};
ghost use Rattle.text_characters.specs.Characters as spec;

/// The byte at an index, or 0 past the end.
#[inline]
pub fn byte_at(text: &[u8], index: usize) -> u8
    ensures { result ≡ slice_index text.now index }
{
    text.get(index).copied().unwrap_or(0)
}

/// The first byte, or 0 where there is none.
#[inline]
pub fn first(text: &[u8]) -> u8
    ensures { result ≡ spec.first text.now }
{
    byte_at(text, 0)
}

/// How many bytes a character takes that begins with this one.
#[inline]
pub fn width(byte: u8) -> usize
    ensures value { result ≡ spec.width byte }
    ensures some { 0 < result }
{
    if byte < 128 {
        1
    } else if byte < 224 {
        2
    } else if byte < 240 {
        3
    } else {
        4
    }
}

#[tactic(auto, unfolding(crate::specs::Characters::point_of))]
fn point_of(first: u8, second: u8, third: u8, fourth: u8) -> u32
    ensures value { result ≡ spec.point_of first second third fourth }
    ensures within { result < 2097152 }
{
    let (a, b) = (u32::from(first), u32::from(second % 64));
    let (c, d) = (u32::from(third % 64), u32::from(fourth % 64));
    if first < 128 {
        a
    } else if first < 224 {
        a % 32 * 64 + b
    } else if first < 240 {
        a % 16 * 4096 + b * 64 + c
    } else {
        a % 8 * 262144 + b * 4096 + c * 64 + d
    }
}

/// The code point of the character that a text in UTF-8 begins with, and 0 where the text is empty.
#[inline]
pub fn point(text: &[u8]) -> u32
    ensures value { result ≡ spec.point text.now }
    ensures within { result < 2097152 }
{
    point_of(
        first(text),
        byte_at(text, 1),
        byte_at(text, 2),
        byte_at(text, 3),
    )
}

/// What is left behind the first byte.
#[inline]
pub fn past_byte(text: &[u8]) -> &[u8]
    ensures value { result.now ≡ drop 1 text.now }
    ensures within { length result.now ≤ length text.now }
    ensures shorter { 0 < length text.now → length result.now < length text.now }
{
    text.get(1..).unwrap_or(text)
}

/// What is left behind the first character.
#[inline]
pub fn behind(text: &[u8]) -> &[u8]
    ensures value { result.now ≡ spec.behind text.now }
    ensures within { length result.now ≤ length text.now }
    ensures shorter { 0 < length text.now → length result.now < length text.now }
{
    let width = width(first(text));
    &text[width.min(text.len())..]
}

/// Whether a text begins with a line terminator: a line feed, a carriage return, or a line or paragraph separator.
#[inline]
#[tactic(auto, unfolding(crate::specs::Characters::begins_line_end))]
pub fn begins_line_end(text: &[u8]) -> bool
    ensures { result ≡ spec.begins_line_end text.now }
{
    match first(text) {
        b'\n' | b'\r' => true,
        0xE2 => byte_at(text, 1) == 0x80 && matches!(byte_at(text, 2), 0xA8 | 0xA9),
        _ => false,
    }
}

/// What is left behind a line terminator, where a carriage return takes the line feed behind it along.
#[tactic(auto, unfolding(crate::specs::Characters::after_line_end))]
pub fn after_line_end(text: &[u8]) -> &[u8]
    ensures value { result.now ≡ spec.after_line_end text.now }
    ensures within { length result.now ≤ length text.now }
    ensures shorter { 0 < length text.now → length result.now < length text.now }
{
    if first(text) == b'\r' && byte_at(text, 1) == b'\n' {
        &text[2..]
    } else {
        behind(text)
    }
}
