//! Why a text is refused.
ghost use Rattle.std.specs.Prelude.{◌≡◌};
ghost use Rattle.text_reader.specs.Faults as spec;

use std::alloc::{AllocError, AllocFailed};
use std::{fmt, str};
use text_lexer::{Mark, spelling};
use thiserror::Error;

/// What should stand where something else does.
#[derive(Clone, Copy, PartialEq, Eq)]
pub enum Expected {
    /// A token of the language.
    Token,
    Mark(Mark),
    /// A word of the language.
    Word(&'static str),
    Expression,
    Statement,
    /// A name that may be bound or referred to.
    Name,
    /// A key of an object, of a class, or behind a dot.
    Key,
    /// A string.
    Text,
    /// What may be assigned to or bound.
    Target,
    /// A semicolon, or a place where it may be left out.
    Semicolon,
    /// What a declaration here has to begin with.
    Initializer,
    /// Other parameters or arguments: as many as may stand here, or plain names before `"use strict"`.
    Parameters,
    /// The end of the text.
    End,
}

impl Expected {
    // What is said of it, but for punctuators and words.
    fn phrase(self) -> &'static str {
        match self {
            Expected::Token | Expected::Mark(_) | Expected::Word(_) => "a token",
            Expected::Expression => "an expression",
            Expected::Statement => "a statement",
            Expected::Name => "a name",
            Expected::Key => "a key",
            Expected::Text => "a string",
            Expected::Target => "something to assign to or to bind",
            Expected::Semicolon => "a semicolon or the end of the line",
            Expected::Initializer => "`=` and a value",
            Expected::Parameters => "other parameters or arguments",
            Expected::End => "the end of the text",
        }
    }
}

impl fmt::Display for Expected {
    fn fmt<W: fmt::Write>(&self, f: &mut fmt::Formatter<W>) -> fmt::Result {
        match self {
            Expected::Mark(mark) => {
                let sign = str::from_utf8(spelling(*mark)).unwrap_or("?");
                write!(f, "`{sign}`")
            }
            Expected::Word(word) => write!(f, "`{word}`"),
            other => f.write_str((*other).phrase()),
        }
    }
}

impl fmt::Debug for Expected {
    fn fmt<W: fmt::Write>(&self, f: &mut fmt::Formatter<W>) -> fmt::Result {
        write!(f, "{self}")
    }
}

/// What is written in a language that grew from JavaScript, and is not read.
#[derive(Clone, Copy, Debug, PartialEq, Eq)]
pub enum Language {
    Jsx,
    Types,
    Decorators,
}

impl fmt::Display for Language {
    fn fmt<W: fmt::Write>(&self, f: &mut fmt::Formatter<W>) -> fmt::Result {
        f.write_str(match self {
            Language::Jsx => "JSX",
            Language::Types => "types of TypeScript",
            Language::Decorators => "decorators",
        })
    }
}

/// Why a text is refused. A place is how many bytes are before it; `line_and_column` of crate text_places tells it to people.
#[derive(Clone, Copy, Debug, PartialEq, Eq, Error)]
pub enum TextFault {
    /// Memory was refused.
    #[error("no memory")]
    NoMemory,
    /// The bytes are no UTF-8: how many are, before the first that is not.
    #[error("not UTF-8")]
    NotUtf8 { at: usize },
    /// A token stands where it can't.
    #[error("expected {expected}")]
    Unexpected { at: usize, expected: Expected },
    /// What begins here is not closed: a string, a template, a regular expression or a comment.
    #[error("a string, a template or a comment that is not closed")]
    Unterminated { at: usize },
    /// A string, a template or a name that begins here has an escape that there is not.
    #[error("a bad escape")]
    BadEscape { at: usize },
    /// A number is not finished, or a name or a digit stands right behind it.
    #[error("a bad number")]
    BadNumber { at: usize },
    /// A regular expression is not closed in its line.
    #[error("a bad regular expression")]
    BadRegex { at: usize },
    /// A string that begins here has half of a surrogate pair for a value.
    #[error("half of a surrogate pair")]
    HalfSurrogate { at: usize },
    /// A directive that is written with escapes: the tree would say `"use strict"`, and ECMA-262 doesn't (11.2.1).
    #[error("a directive `use strict` that is written with escapes")]
    EscapedDirective { at: usize },
    /// What the reader doesn't know.
    #[error("{language} are not read")]
    NotRead { at: usize, language: Language },
    /// It nests too deeply.
    #[error("nested too deeply")]
    TooDeep { at: usize },
    /// It has too many bytes for the places in a tree, which go up to 2 ^ 32 - 1.
    #[error("too long")]
    TooLong,
    /// What was read is not what the text says, or no program: a fault of the reader, which a check has found. The parser
    /// alone never answers it.
    #[error("a fault of the reader, not of the text: what was read is not what the text says")]
    NotTheText,
}

impl TextFault {
    /// How many bytes are before what is at fault, where it has a place.
    pub fn at(&self) -> Option<usize>
        ensures { result ≡ spec.place_of self.now }
    {
        match self {
            TextFault::NotUtf8 { at }
            | TextFault::Unexpected { at, .. }
            | TextFault::Unterminated { at }
            | TextFault::BadEscape { at }
            | TextFault::BadNumber { at }
            | TextFault::BadRegex { at }
            | TextFault::HalfSurrogate { at }
            | TextFault::EscapedDirective { at }
            | TextFault::NotRead { at, .. }
            | TextFault::TooDeep { at } => Some(*at),
            TextFault::NoMemory | TextFault::TooLong | TextFault::NotTheText => None,
        }
    }
}

impl From<AllocError> for TextFault {
    ghost use Rattle.text_reader.specs.declared.fault.TextFault.TheVariants.{NoMemory};
    ghost use Rattle.std.specs.Prelude.{◌≡◌};

    ghost from_gives = { λ _ e. e ≡ NoMemory };

    fn from(_: AllocError) -> TextFault {
        TextFault::NoMemory
    }
}

impl<T: Drop> From<AllocFailed<T>> for TextFault {
    ghost use Rattle.text_reader.specs.declared.fault.TextFault.TheVariants.{NoMemory};
    ghost use Rattle.std.specs.Prelude.{◌≡◌};

    ghost from_gives = { λ _ e. e ≡ NoMemory };

    fn from(_: AllocFailed<T>) -> TextFault {
        TextFault::NoMemory
    }
}
