//! The tokens of a tree.
use crate::item::Ending;
use swc_tree_marks::Span;
use text_lexer::{Mark, TemplatePart};

/// Where a line ends, if a text is laid out.
#[derive(Clone, Copy, Debug, PartialEq, Eq)]
pub enum Gap {
    /// A line begins.
    Line,
    /// Lines are further in.
    In,
    /// Lines are no longer further in, and one begins.
    Out,
}

/// Where a node begins or stops in its text, in bytes from 1.
#[derive(Clone, Copy)]
pub enum Frame<'a> {
    /// The next token begins here.
    Begins(usize),
    /// The last token has ended before this byte.
    Stops(usize),
    /// The next name, which may stand in parentheses, is this one and has this span.
    Named(&'a str, Span),
}

/// What a tree is written with: a token, or what is said of the text between two.
#[derive(Clone, Copy)]
pub enum Piece<'a> {
    /// A word of the language, in which nothing is escaped.
    Word(&'a str),
    /// A name.
    Name(&'a str),
    /// A private name, without its `#`.
    Private(&'a str),
    Mark(Mark),
    /// A number, as it is written.
    Number(&'a str),
    /// A big integer, as it is written.
    BigInt(&'a str),
    /// A string, by its value, and how it is written where that is known.
    Quoted(&'a str, Option<&'a str>),
    /// A text of a template, by its value where it has one, and as it is written.
    Template(TemplatePart, Option<&'a str>, &'a str),
    /// A regular expression, by its pattern and its flags.
    Regex(&'a str, &'a str),
    /// The first line, behind `#!`.
    Hashbang(&'a str),
    /// An attribute of an import, by its key and its value.
    Attribute(&'a str, &'a str),
    /// A comma that may stand there.
    MayComma,
    /// `{ } from`, which may stand there.
    MayFrom,
    /// `, { }`, which may stand there.
    MayBraces,
    /// A name that may stand in parentheses.
    Parameter(&'a str),
    /// No token: no line ends before the next.
    Here,
    /// No token: how what stands before it ends.
    Closes(Ending),
    /// A semicolon that may be left to the reader.
    End,
    /// No token: how a text is laid out.
    Gap(Gap),
    /// No token: where a node begins or stops.
    Frame(Frame<'a>),
    /// What no text has.
    Never,
}
