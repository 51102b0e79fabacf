//! Pieces written one after another, with the blanks that they need.
use crate::bytes::Bytes;
use crate::mark_text::mark_text;
use std::alloc::{AllocError, Global};
use text_comments::{goes_to_line_end, has_line_end};
use text_lexer::{Mark, TemplatePart};
use text_pieces::{Gap, Piece};

/// How a text is laid out.
#[derive(Clone, Copy, Debug, PartialEq, Eq)]
pub enum Layout {
    /// A statement or member of a class a line, two blanks a level, and in a line no blank that may be left out.
    Lines,
    /// No blank that may be left out, and no line end.
    Compact,
}

/// What the last token ends with, as far as the next may not follow it at once.
#[derive(Clone, Copy, PartialEq, Eq)]
enum Last {
    /// Nothing has been written.
    Nothing,
    /// What goes on with no other token.
    Closed,
    /// A comment that a line end has to stand behind.
    OpenComment,
    /// Any other comment.
    Comment,
    /// A part of a name.
    Name,
    /// A number that goes on with a dot.
    Digits,
    Plus,
    Minus,
    Slash,
    Less,
}

/// Pieces and comments laid out one after another. Nothing is promised of the text: whoever wants that it has them holds it against them.
/// Where memory is refused it goes on without what had no room, and gives no text in the end.
#[derive(Drop)]
pub struct Writer<'a> {
    out: Bytes,
    layout: Layout,
    last: Last,
    depth: usize,
    /// A line begins before the next token.
    line: bool,
    /// Lines are further in, and nothing has been written there.
    opened: bool,
    /// Comments that stand behind the next parameter.
    held: Vec<&'a [u8]>,
}

fn is_name_byte(byte: u8) -> bool {
    byte.is_ascii_alphanumeric() || byte == b'$' || byte == b'_' || byte == b'\\' || byte >= 128
}

/// Whether a blank has to stand between what ends thus and a token that begins with the byte.
fn joins(last: Last, byte: u8) -> bool {
    match last {
        Last::Nothing | Last::Closed => false,
        Last::OpenComment | Last::Comment => true,
        Last::Name => is_name_byte(byte),
        Last::Digits => is_name_byte(byte) || byte == b'.',
        Last::Plus => byte == b'+',
        Last::Minus => byte == b'-',
        Last::Slash => byte == b'/',
        Last::Less => byte == b'!',
    }
}

fn last_of_mark(mark: Mark) -> Last {
    match mark {
        Mark::Plus | Mark::PlusPlus => Last::Plus,
        Mark::Minus | Mark::MinusMinus => Last::Minus,
        Mark::Slash => Last::Slash,
        Mark::Lt => Last::Less,
        _ => Last::Closed,
    }
}

fn last_of_number(text: &str) -> Last {
    for byte in text.as_bytes() {
        if !(byte.is_ascii_digit() || *byte == b'_') {
            return Last::Name;
        }
    }
    Last::Digits
}

impl<'a> Writer<'a> {
    /// A writer of an empty text.
    pub fn new(alloc: Global, layout: Layout) -> Writer<'a> {
        Writer {
            out: Bytes::new(alloc),
            layout,
            last: Last::Nothing,
            depth: 0,
            line: false,
            opened: false,
            held: Vec::new(alloc),
        }
    }

    fn begin_line(&mut self) {
        if self.last != Last::Nothing {
            self.out.put_byte(b'\n');
        }
        for _ in 0..self.depth {
            self.out.put(b"  ");
        }
        self.last = Last::Closed;
    }

    /// What goes before a token that begins with the byte.
    fn begin(&mut self, byte: u8) {
        if self.line && self.layout == Layout::Lines {
            self.begin_line();
        } else if joins(self.last, byte) {
            self.out.put_byte(if self.last == Last::OpenComment {
                b'\n'
            } else {
                b' '
            });
        }
        self.line = false;
        self.opened = false;
    }

    /// What goes before a comment.
    fn begin_comment(&mut self, text: &[u8]) {
        let is_laid_out = self.layout == Layout::Lines;
        if self.line && is_laid_out {
            self.begin_line();
        } else if self.last == Last::Nothing {
            return;
        } else if self.last == Last::OpenComment || text.starts_with(b"-->") {
            self.out.put_byte(b'\n');
        } else if is_laid_out || self.last == Last::Slash || !text.starts_with(b"/") {
            self.out.put_byte(b' ');
        }
    }

    /// Puts a comment behind what is written. A line end stands behind one that goes to the end of its line.
    pub fn comment(&mut self, text: &[u8]) {
        let begins_line = self.last == Last::Nothing || self.line;
        self.begin_comment(text);
        self.out.put(text);
        let is_open = goes_to_line_end(text);
        self.last = match self.layout {
            _ if is_open => Last::OpenComment,
            Layout::Lines => Last::Comment,
            Layout::Compact => Last::Closed,
        };
        self.line = is_open || begins_line && has_line_end(text);
        self.opened = false;
    }

    /// Holds a comment until the next parameter is written, to stand behind it in its parentheses.
    pub fn hold(&mut self, text: &'a [u8]) {
        if self.held.push(text).is_err() {
            self.out.refuse();
        }
    }

    fn release(&mut self) {
        for at in 0..self.held.len() {
            if let Some(text) = self.held.get(at).copied() {
                self.comment(text);
            }
        }
        self.held.clear();
    }

    fn token(&mut self, text: &str, last: Last) {
        let bytes = text.as_bytes();
        self.begin(if bytes.is_empty() { b' ' } else { bytes[0] });
        self.out.put(bytes);
        self.last = last;
    }

    fn mark(&mut self, mark: Mark) {
        self.token(mark_text(mark), last_of_mark(mark));
    }

    fn private(&mut self, text: &str) {
        self.token("#", Last::Closed);
        self.out.put(text.as_bytes());
        self.last = Last::Name;
    }

    fn quoted(&mut self, value: &str) {
        self.token("\"", Last::Closed);
        for byte in value.as_bytes() {
            match *byte {
                b'"' => self.out.put(b"\\\""),
                b'\\' => self.out.put(b"\\\\"),
                b'\n' => self.out.put(b"\\n"),
                b'\r' => self.out.put(b"\\r"),
                other => self.out.put_byte(other),
            }
        }
        self.out.put_byte(b'"');
    }

    fn template(&mut self, part: TemplatePart, raw: &str) {
        match part {
            TemplatePart::Whole | TemplatePart::Head => self.token("`", Last::Closed),
            TemplatePart::Middle | TemplatePart::Tail => self.token("}", Last::Closed),
        }
        self.out.put(raw.as_bytes());
        match part {
            TemplatePart::Whole | TemplatePart::Tail => self.out.put_byte(b'`'),
            TemplatePart::Head | TemplatePart::Middle => self.out.put(b"${"),
        }
    }

    fn regex(&mut self, pattern: &str, flags: &str) {
        self.token("/", Last::Name);
        self.out.put(pattern.as_bytes());
        self.out.put_byte(b'/');
        self.out.put(flags.as_bytes());
    }

    fn hashbang(&mut self, text: &str) {
        self.token("#!", Last::Closed);
        self.out.put(text.as_bytes());
        self.out.put_byte(b'\n');
        self.last = Last::Nothing;
    }

    fn parameter(&mut self, name: &str) {
        self.mark(Mark::LeftParen);
        self.token(name, Last::Name);
        self.release();
        self.mark(Mark::RightParen);
    }

    fn attribute(&mut self, key: &str, value: &str) {
        self.quoted(key);
        self.mark(Mark::Colon);
        self.quoted(value);
    }

    fn gap(&mut self, gap: Gap) {
        match gap {
            Gap::Line => self.line = true,
            Gap::In => {
                self.depth = self.depth.saturating_add(1);
                self.opened = true;
            }
            Gap::Out => {
                self.depth = self.depth.saturating_sub(1);
                self.line = !self.opened;
                self.opened = false;
            }
        }
    }

    /// Puts a piece behind what is written, with the blanks that it needs.
    pub fn piece(&mut self, piece: Piece<'_>) {
        match piece {
            Piece::Word(text) | Piece::Name(text) | Piece::BigInt(text) => self.token(
                text,
                Last::Name,
            ),
            Piece::Private(text) => self.private(text),
            Piece::Mark(mark) => self.mark(mark),
            Piece::Number(text) => self.token(text, last_of_number(text)),
            Piece::Quoted(_, Some(raw)) => self.token(raw, Last::Closed),
            Piece::Quoted(value, None) => self.quoted(value),
            Piece::Template(part, _, raw) => self.template(part, raw),
            Piece::Regex(pattern, flags) => self.regex(pattern, flags),
            Piece::Hashbang(text) => self.hashbang(text),
            Piece::Attribute(key, value) => self.attribute(key, value),
            Piece::Parameter(name) => self.parameter(name),
            Piece::End => self.mark(Mark::Semicolon),
            Piece::Gap(gap) => self.gap(gap),
            Piece::MayComma
            | Piece::MayFrom
            | Piece::MayBraces
            | Piece::Here
            | Piece::Closes(_)
            | Piece::Frame(_)
            | Piece::Never => (),
        }
    }

    /// The text, whose last line ends if it is laid out in lines.
    ///
    /// # Errors
    ///
    /// Where memory is or was refused.
    pub fn finish(mut self) -> Result<Vec<u8>, AllocError> {
        let ends = self.layout == Layout::Lines && self.last != Last::Nothing;
        if ends || self.last == Last::OpenComment {
            self.out.put_byte(b'\n');
        }
        let Writer { out, .. } = self;
        out.finish()
    }
}

/// The pieces, laid out. Nothing is promised of the text: whoever wants that it has the pieces holds it against them.
pub fn text_of_pieces(
    alloc: Global,
    layout: Layout,
    pieces: &[Piece<'_>],
) -> Result<Vec<u8>, AllocError> {
    let mut writer = Writer::new(alloc, layout);
    for piece in pieces {
        writer.piece(*piece);
    }
    writer.finish()
}
