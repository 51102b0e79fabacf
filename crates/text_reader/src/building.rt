//! The nodes that a parser makes.
use crate::fault::{Expected, TextFault};
use crate::keywords::keyword_of;
use crate::parser::Parser;
use crate::waiting::{Part, joined};
use std::str;
use swc_tree_items::{Boxed, Items, Text};
use swc_tree_marks::{Ident, Span, SyntaxContext};
use swc_tree_node::{Kind, Node, Word};
use text_lexer::Token;
use text_strings::Reading;
use text_values::{CookError, Flaw, cook, cooks_to, make_raw};

/// A place in a tree: bytes from 1, since a span of 0 and 0 is that of what stands nowhere.
pub fn place(at: usize) -> u32 {
    u32::try_from(at).unwrap_or(u32::MAX).saturating_add(1)
}

/// The span of what begins behind so many bytes, and ends behind so many.
pub fn span_of(start: usize, end: usize) -> Span {
    Span {
        lo: place(start),
        hi: place(end),
    }
}

fn flawed(error: CookError, at: usize) -> TextFault {
    match error {
        CookError::NoMemory => TextFault::NoMemory,
        CookError::Flawed(Flaw::BadEscape) => TextFault::BadEscape { at },
        CookError::Flawed(Flaw::HalfSurrogate) => TextFault::HalfSurrogate { at },
    }
}

/// Whether a literal's text stands for itself: no escape is in it, and no line end that is read as another.
fn is_plain(body: &[u8]) -> bool {
    !body.iter().any(|byte| *byte == b'\\' || *byte == b'\r')
}

/// How high the texts of a template are, as a list.
const TEXTS: u32 = 3;

impl<'a> Parser<'a> {
    /// How many nodes are to be parts of others.
    pub fn count(&self) -> usize {
        self.nodes.len()
    }

    /// The span of what begins at a place, and ends with the last token.
    pub fn span_from(&self, start: usize) -> Span {
        span_of(start, self.end())
    }

    /// Makes a leaf that is to be a part of a node.
    pub fn push(&mut self, leaf: Node) {
        self.push_high(leaf, Part::leaf());
    }

    /// Makes a node of which so much is known, and which is to be a part of another.
    pub(crate) fn push_high(&mut self, node: Node, part: Part) {
        if part.height > self.height {
            return self.too_deep();
        }
        if self.nodes.push(node).is_err() || self.parts.push(part).is_err() {
            self.refuse(TextFault::NoMemory);
        }
    }

    /// The last node, laid and taken off, with what is known of it.
    pub(crate) fn pop_high(&mut self) -> Option<(Node, Part)> {
        self.lay_last();
        let part = self.last_part();
        let _ = self.parts.pop();
        let node = self.nodes.pop();
        self.laid = self.laid.min(self.nodes.len());
        match node {
            Some(node) => Some((node, part)),
            None => None,
        }
    }

    /// Makes what stands in a field that holds nothing.
    pub fn push_absent(&mut self) {
        self.push(Node::Absent);
    }

    /// Makes an operator or the keyword of a declaration.
    pub fn push_word(&mut self, word: Word) {
        self.push(Node::Word(word));
    }

    /// Makes a flag.
    pub fn push_flag(&mut self, flag: bool) {
        self.push(Node::Flag(flag));
    }

    /// Makes the span of what begins at a place, and ends with the last token.
    pub fn push_span(&mut self, start: usize) {
        let span = self.span_from(start);
        self.push(Node::Span(span));
    }

    // Makes a node, or keeps why there is none.
    fn push_made(&mut self, made: Result<Node, TextFault>) {
        match made {
            Ok(node) => self.push(node),
            Err(fault) => self.refuse(fault),
        }
    }

    // The same of a text.
    fn push_made_text(&mut self, made: Result<Text, TextFault>) {
        match made {
            Ok(text) => self.push(Node::Text(text)),
            Err(fault) => self.refuse(fault),
        }
    }

    /// A text of the tree, of bytes that the lexer has read.
    pub fn text_of(&self, text: &[u8]) -> Result<Text, TextFault> {
        match str::from_utf8(text) {
            Ok(text) => Ok(Text::new(self.alloc, text)?),
            Err(_) => Err(TextFault::Unexpected {
                at: self.start(),
                expected: Expected::Token,
            }),
        }
    }

    /// Makes a text.
    pub fn push_text(&mut self, text: &[u8]) {
        let made = self.text_of(text);
        self.push_made_text(made);
    }

    /// The value of what is written with escapes, or may be.
    fn value_of(&self, reading: Reading, body: &[u8]) -> Result<Text, TextFault> {
        if is_plain(body) {
            return self.text_of(body);
        }
        match cook(self.alloc, reading, body) {
            Ok(value) => self.text_of(&value),
            Err(error) => Err(flawed(error, self.start())),
        }
    }

    fn push_value(&mut self, body: &[u8]) {
        let made = self.value_of(Reading::Quoted, body);
        self.push_made_text(made);
    }

    /// Makes an identifier of a kind of the name here, and goes behind it. The name may be bound and referred to.
    pub fn push_name(&mut self, kind: Kind) {
        let named = self.name_here();
        self.push_named(kind, named);
    }

    // Makes an identifier of the word here, and goes behind it; or keeps why there is none.
    fn push_named(&mut self, kind: Kind, named: Result<Text, TextFault>) {
        let start = self.start();
        match named {
            Ok(sym) => {
                self.advance();
                self.push_ident(kind, sym, start);
            }
            Err(fault) => self.refuse(fault),
        }
    }

    fn name_here(&self) -> Result<Text, TextFault> {
        let sym = self.word_here(Expected::Name)?;
        let keyword = match self.token() {
            Token::EscapedName(_) => keyword_of(sym.as_str().as_bytes()),
            _ => self.keyword(),
        };
        if self.may_be_name(keyword) {
            Ok(sym)
        } else {
            Err(TextFault::Unexpected {
                at: self.start(),
                expected: Expected::Name,
            })
        }
    }

    /// Whether a name with escapes stands here that is read so.
    pub fn is_escaped(&self, name: &str) -> bool {
        match self.token() {
            Token::EscapedName(raw) => { cooks_to(Reading::Quoted, raw, name.as_bytes()) }
            _ => false,
        }
    }

    /// The word here; where there is none, something else was expected.
    fn word_here(&self, expected: Expected) -> Result<Text, TextFault> {
        match self.token() {
            Token::Name(name) => self.text_of(name),
            Token::EscapedName(raw) => self.value_of(Reading::Quoted, raw),
            _ => Err(TextFault::Unexpected {
                at: self.start(),
                expected,
            }),
        }
    }

    /// The same of any word.
    pub fn push_any_name(&mut self) {
        let named = self.word_here(Expected::Name);
        self.push_named(Kind::Ident, named);
    }

    fn push_ident(&mut self, kind: Kind, sym: Text, start: usize) {
        let ident = Ident {
            span: self.span_from(start),
            ctxt: SyntaxContext::empty(self.alloc),
            sym,
        };
        match Boxed::new(self.alloc, ident) {
            Ok(ident) => self.push(Node::Identifier(kind, ident)),
            Err(_) => self.refuse(TextFault::NoMemory),
        }
    }

    /// Makes a key of the word here, and goes behind it.
    pub fn push_key_name(&mut self) {
        let (start, before) = (self.start(), self.count());
        self.push_key_text();
        self.build(Kind::IdentName, start, before);
    }

    /// Makes a private name of what is written behind `#` here, and goes behind it.
    pub fn push_private_name(&mut self, raw: &[u8]) {
        let (start, before) = (self.start(), self.count());
        self.push_value(raw);
        self.advance();
        self.build(Kind::PrivateName, start, before);
    }

    /// Makes a node of a kind of the token here, and goes behind it. It holds a text, if one is given.
    pub fn push_leaf(&mut self, kind: Kind, text: Option<&[u8]>) {
        let (start, before) = (self.start(), self.count());
        if let Some(text) = text {
            self.push_text(text);
        }
        self.advance();
        self.build(kind, start, before);
    }

    /// Makes a boolean literal of the word here, and goes behind it.
    pub fn push_bool(&mut self, value: bool) {
        let (start, before) = (self.start(), self.count());
        self.push_flag(value);
        self.advance();
        self.build(Kind::Bool, start, before);
    }

    /// Makes a string of the one here, and goes behind it.
    pub fn push_string(&mut self) {
        let (start, before) = (self.start(), self.count());
        let Token::Str(body) = self.token() else {
            return self.unexpected(Expected::Text);
        };
        self.push_value(body);
        self.push_text(self.written());
        self.advance();
        self.build(Kind::Str, start, before);
    }

    /// Makes a text of the value of the string here, and goes behind it.
    pub fn push_string_value(&mut self) {
        let Token::Str(body) = self.token() else {
            return self.unexpected(Expected::Text);
        };
        self.push_value(body);
        self.advance();
    }

    /// Makes a text of the word here, and goes behind it.
    pub fn push_key_text(&mut self) {
        let made = self.word_here(Expected::Key);
        self.push_made_text(made);
        self.advance();
    }

    /// Makes a regular expression of the one here, and goes behind it.
    pub fn push_regex(&mut self) {
        let (start, before) = (self.start(), self.count());
        let Token::Regex(pattern, flags) = self.token() else {
            return self.unexpected(Expected::Expression);
        };
        self.push_text(pattern);
        self.push_text(flags);
        self.advance();
        self.build(Kind::Regex, start, before);
    }

    fn cooked(&self, body: &[u8], is_tagged: bool) -> Result<Node, TextFault> {
        match self.value_of(Reading::Template, body) {
            Ok(value) => Ok(Node::Text(value)),
            Err(TextFault::BadEscape { .. }) if is_tagged => Ok(Node::Absent),
            Err(fault) => Err(fault),
        }
    }

    fn raw(&self, body: &[u8]) -> Result<Node, TextFault> {
        if is_plain(body) {
            return Ok(Node::Text(self.text_of(body)?));
        }
        let raw = make_raw(self.alloc, body)?;
        Ok(Node::Text(self.text_of(&raw)?))
    }

    /// Makes a text of a template, which begins so many bytes in; a template with a tag may have bad escapes.
    pub fn keep_template_text(&mut self, body: &[u8], is_tail: bool, is_tagged: bool) {
        let start = self.start().saturating_add(1);
        let span = span_of(start, start.saturating_add(body.len()));
        let before = self.count();
        self.push(Node::Span(span));
        self.push_flag(is_tail);
        let cooked = self.cooked(body, is_tagged);
        self.push_made(cooked);
        let raw = self.raw(body);
        self.push_made(raw);
        self.close(Kind::TplElement, before);
        if let Some((text, _)) = self.pop_high()
            && self.texts.push(text).is_err()
        {
            self.refuse(TextFault::NoMemory);
        }
    }

    /// Puts a node before those behind so many.
    pub fn insert(&mut self, before: usize, node: Node) {
        if before > self.nodes.len() || before > self.parts.len() {
            return self.unexpected(Expected::Token);
        }
        if self.nodes.insert(before, node).is_err()
            || self.parts.insert(before, Part::leaf()).is_err()
        {
            self.refuse(TextFault::NoMemory);
        }
    }

    /// Makes a node of a kind that begins at a place, whose other fields are the nodes behind so many.
    pub fn build(&mut self, kind: Kind, start: usize, before: usize) {
        let span = self.span_from(start);
        self.insert(before, Node::Span(span));
        self.close(kind, before);
    }

    /// The same with a word or a flag between the span and the other fields.
    pub fn build_with(&mut self, kind: Kind, second: Node, start: usize, before: usize) {
        self.insert(before, second);
        self.build(kind, start, before);
    }

    /// Makes a node of a kind, whose fields are the nodes behind so many.
    pub fn close(&mut self, kind: Kind, before: usize) {
        let part = self.part_from(before);
        if !part.is_small() {
            return self.wait(Node::Tree(kind, Items::new(self.alloc)), part);
        }
        if let Some(fields) = self.take_from(before) {
            self.push_high(Node::Tree(kind, fields), part.settled());
        }
    }

    /// Makes a list of the nodes behind so many.
    pub fn list(&mut self, before: usize) {
        let part = self.part_from(before);
        if !part.is_small() {
            return self.wait(Node::List(Items::new(self.alloc)), part);
        }
        if let Some(items) = self.take_from(before) {
            self.push_high(Node::List(items), part.settled());
        }
    }

    /// What is known of a node, whose parts are the nodes behind so many.
    fn part_from(&self, before: usize) -> Part {
        match self.parts.as_slice().split_at_checked(before) {
            Some((_, parts)) => joined(parts),
            None => joined(&[]),
        }
    }

    // The nodes behind so many, taken off; none where there are fewer or memory is refused.
    fn take_from(&mut self, before: usize) -> Option<Items<Node>> {
        if before > self.nodes.len() {
            self.unexpected(Expected::Token);
            return None;
        }
        self.parts.truncate(before);
        self.laid = self.laid.min(before);
        match self.nodes.split_off(before) {
            Ok(taken) => Some(Items::from_vec(taken)),
            Err(_) => {
                self.refuse(TextFault::NoMemory);
                None
            }
        }
    }

    /// Makes a list of the templates' texts behind so many.
    pub fn list_texts(&mut self, before: usize) {
        if before > self.texts.len() {
            return self.unexpected(Expected::Token);
        }
        match self.texts.split_off(before) {
            Ok(texts) => {
                let part = Part::laid(TEXTS, u32::MAX);
                self.push_high(Node::List(Items::from_vec(texts)), part);
            }
            Err(_) => self.refuse(TextFault::NoMemory),
        }
    }

    /// Turns round the last two nodes.
    pub fn swap(&mut self) {
        let (Some(last), Some(other)) = (self.pop_high(), self.pop_high()) else {
            return self.unexpected(Expected::Token);
        };
        self.push_high(last.0, last.1);
        self.push_high(other.0, other.1);
    }

    /// Whether the last node is of a kind.
    pub fn is_last(&self, kind: Kind) -> bool {
        match self.nodes.last() {
            Some(Node::Tree(other, _)) => *other == kind,
            Some(Node::Identifier(other, _)) => *other == kind,
            _ => false,
        }
    }

    /// Whether the node behind so many is of a kind.
    pub fn is_at(&self, before: usize, kind: Kind) -> bool {
        match self.nodes.get(before) {
            Some(Node::Tree(other, _)) => *other == kind,
            _ => false,
        }
    }

    /// Whether the last node is a name that may be bound and referred to here.
    pub fn is_last_name(&self) -> bool {
        match self.nodes.last() {
            Some(Node::Identifier(_, ident)) => {
                self.may_be_name(keyword_of(ident.get().sym.as_str().as_bytes()))
            }
            _ => false,
        }
    }

    /// Whether the last node is a list.
    pub fn is_last_list(&self) -> bool {
        matches!(self.nodes.last(), Some(Node::List(_)))
    }

    /// Whether the last node stands for nothing.
    pub fn is_last_absent(&self) -> bool {
        matches!(self.nodes.last(), Some(Node::Absent))
    }
}
