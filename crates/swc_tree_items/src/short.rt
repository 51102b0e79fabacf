//! Texts that take no memory.
ghost use Rattle.std.specs.Prelude.{◌≡◌, [], IfSome};

use std::marker::Model;
use std::str;

/// The most bytes of a text that takes no memory: with their number and a tag they are as large as a `String`.
const MOST: usize = 22;

/// A text of a few bytes, which lie in the value itself. Contracts see it as these bytes.
///
/// No `ArrayString`, since each check above would load what is said of it.
#[derive(Drop)]
pub(crate) struct ShortText {
    len: u8,
    bytes: [u8; MOST],
}

impl Model for ShortText {
    ghost use Rattle.std.specs.Prelude.{◌≤◌, List, ℕ, IsUtf8, length, take};

    ghost Value = { List ℕ };

    ghost view = { λ s. take s.len s.bytes };

    ghost invariant = { λ s. (s.len ≤ length s.bytes) × ∥ IsUtf8 (take s.len s.bytes) ∥₁ };
}

impl ShortText {
    /// The text of no byte.
    pub(crate) fn empty() -> ShortText
        ensures { result ≡ [] }
    {
        ShortText {
            len: 0,
            bytes: [0; MOST],
        }
    }

    /// A copy of a text, if it has so few bytes.
    pub(crate) fn new(text: &str) -> Option<ShortText>
        ensures { IfSome result (λ s. s ≡ text.now) }
    {
        if text.len() > MOST {
            return None;
        }
        let mut bytes = [0; MOST];
        bytes[..text.len()].copy_from_slice(text.as_bytes());
        Some(ShortText {
            len: text.len() as u8,
            bytes,
        })
    }

    /// The same text once more.
    pub(crate) fn copy(&self) -> ShortText
        ensures { result ≡ self.now }
    {
        ShortText {
            len: self.len,
            bytes: self.bytes,
        }
    }

    /// The text in place.
    pub(crate) fn as_str(&self) -> &str
        ensures { result.now ≡ self.now }
    {
        let bytes = &self.bytes[..usize::from(self.len)];
        // SAFETY: these bytes are UTF-8 by the invariant of the type; that this is asked and holds is proved.
        unsafe { str::from_utf8_unchecked(bytes) }
    }
}
