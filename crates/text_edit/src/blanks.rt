//! Blanks between tokens, and the bytes round them.
use std::alloc::Global;
use text_characters::byte_at;
use text_lexer::{Comments, skip_blank};
use text_printer::Bytes;

pub(crate) fn is_name_byte(byte: u8) -> bool {
    byte.is_ascii_alphanumeric() || byte == b'$' || byte == b'_' || byte == b'\\' || byte >= 128
}

pub(crate) fn first_byte(text: &[u8]) -> u8 {
    if text.is_empty() { b' ' } else { text[0] }
}

pub(crate) fn last_byte(text: &[u8]) -> u8 {
    if text.is_empty() {
        b' '
    } else {
        text[text.len() - 1]
    }
}

/// Whether a text ends with a number that ends with a dot.
fn ends_with_dot(text: &[u8]) -> bool {
    text.len() > 1 && last_byte(text) == b'.' && text[text.len() - 2].is_ascii_digit()
}

/// What a text ends with, as far as the next token may not follow it at once: the last byte, or one of a name in its place.
pub(crate) fn end_byte(text: &[u8]) -> u8 {
    if ends_with_dot(text) {
        b'a'
    } else {
        last_byte(text)
    }
}

/// Whether a blank has to stand between what ends and what begins with these bytes.
pub(crate) fn joins(last: u8, next: u8) -> bool {
    match last {
        b'+' | b'-' => next == last,
        b'/' => next == b'/' || next == b'*' || is_name_byte(next),
        b'<' => next == b'!',
        _ => is_name_byte(last) && (is_name_byte(next) || next == b'.' && last.is_ascii_digit()),
    }
}

/// The same of comments: whether a blank has to stand between what ends and what begins with these bytes.
pub(crate) fn joins_blanks(last: u8, next: u8) -> bool {
    last == next && (last == b'/' || last == b'<')
}

/// Whether a blank stands between new tokens that end and begin with these bytes, though none has to.
pub(crate) fn is_roomy(last: u8, next: u8) -> bool {
    match next {
        b',' | b';' | b'(' | b')' | b'.' => false,
        b'{' => last != b'(',
        b'}' => last != b'{',
        _ => last == b',' || last == b':' || last == b'{',
    }
}

fn has_byte(text: &[u8], wanted: u8) -> bool {
    for byte in text {
        if *byte == wanted {
            return true;
        }
    }
    false
}

/// Whether a comment is among blanks.
pub(crate) fn has_comment(blanks: &[u8]) -> bool {
    has_byte(blanks, b'/') || has_byte(blanks, b'<') || has_byte(blanks, b'>')
}

/// Whether a line ends among blanks.
pub(crate) fn ends_line(comments: Comments, blanks: &[u8]) -> bool {
    match skip_blank(comments, false, blanks) {
        Some((ended, _)) => ended,
        None => false,
    }
}

/// Where a byte of blanks stands.
#[derive(Clone, Copy, PartialEq, Eq)]
enum Within {
    /// Between comments.
    Blank,
    /// Between comments, behind a line end or another blank.
    Indent,
    /// At the second byte that a comment begins with, which ends with its line or not.
    Opens(bool),
    /// In a comment that ends with its line.
    Line,
    /// In another.
    Block,
    /// At the second byte that one ends with.
    Closes,
}

/// Puts a byte behind others that stands between comments.
fn put_between(within: Within, byte: u8, next: u8, out: &mut Bytes) -> Within {
    if byte == b'\n' || byte == b'\r' {
        let put = out.as_slice();
        if within == Within::Blank && (put.is_empty() || last_byte(put) != b' ') {
            out.put_byte(b' ');
        }
        return Within::Indent;
    }
    if within == Within::Indent && (byte == b' ' || byte == b'\t') {
        return Within::Indent;
    }
    if byte == b'<' || byte == b'-' {
        out.put(b"/*");
    }
    out.put_byte(byte);
    match byte {
        b'/' => Within::Opens(next == b'/'),
        b'<' | b'-' => Within::Line,
        _ => Within::Blank,
    }
}

/// Puts a byte of blanks behind others that are to stand in one line; tells where the next stands.
fn put_in_line(within: Within, byte: u8, next: u8, out: &mut Bytes) -> Within {
    let ends = byte == b'\n' || byte == b'\r';
    let closes = byte == b'*' && next == b'/';
    match within {
        Within::Blank | Within::Indent => put_between(within, byte, next, out),
        Within::Opens(in_line) => {
            out.put_byte(b'*');
            if in_line { Within::Line } else { Within::Block }
        }
        Within::Line if ends => {
            out.put(b" */ ");
            Within::Indent
        }
        Within::Line => {
            out.put_byte(byte);
            if closes {
                out.put_byte(b' ');
            }
            Within::Line
        }
        Within::Block => {
            out.put_byte(if ends { b' ' } else { byte });
            if closes {
                Within::Closes
            } else {
                Within::Block
            }
        }
        Within::Closes => {
            out.put_byte(byte);
            Within::Blank
        }
    }
}

/// Blanks with their comments, each closed before its line ends, in one line; `behind`: behind a blank.
pub(crate) fn in_line(alloc: Global, behind: bool, blanks: &[u8]) -> Bytes {
    let mut out = Bytes::new(alloc);
    let mut within = if behind {
        Within::Indent
    } else {
        Within::Blank
    };
    for i in 0..blanks.len() {
        within = put_in_line(
            within,
            blanks[i],
            byte_at(blanks, i.saturating_add(1)),
            &mut out,
        );
    }
    if within == Within::Line {
        out.put(b" */");
    }
    out
}
