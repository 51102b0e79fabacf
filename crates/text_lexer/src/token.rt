//! Tokens, lexical goals and faults.

/// What may stand at a place of a text (ECMA-262, 12): how a slash and a closing brace are read there.
#[derive(Clone, Copy)]
pub enum Goal {
    /// `InputElementDiv`: a slash divides.
    Div,
    /// `InputElementRegExp`: a slash begins a regular expression.
    RegExp,
    /// `InputElementTemplateTail`: a slash divides, and a brace goes on with a template.
    TemplateTail,
    /// `InputElementRegExpOrTemplateTail`.
    RegExpOrTemplateTail,
    /// `InputElementHashbangOrRegExp`, at the beginning of a text.
    HashbangOrRegExp,
}

/// Which piece of a template a token is.
#[derive(Clone, Copy, PartialEq, Eq)]
pub enum TemplatePart {
    /// From backquote to backquote.
    Whole,
    /// From a backquote to `${`.
    Head,
    /// From `}` to `${`.
    Middle,
    /// From `}` to a backquote.
    Tail,
}

/// A token of a text, which lies in the text.
#[derive(Clone, Copy)]
pub enum Token<'a> {
    /// A name or a word of the language, with no escape in it.
    Name(&'a [u8]),
    /// A name that is written with escapes, which is no word of the language.
    EscapedName(&'a [u8]),
    /// What stands behind the sign `#`, as it is written.
    PrivateName(&'a [u8]),
    Mark(crate::mark::Mark),
    /// A number, as it is written.
    Number(&'a [u8]),
    /// A big integer, as it is written, with its `n`.
    BigInt(&'a [u8]),
    /// A string, as it is written between its quotes.
    Str(&'a [u8]),
    /// A piece of a template, as it is written between its signs.
    Template(TemplatePart, &'a [u8]),
    /// The body and the flags of a regular expression.
    Regex(&'a [u8], &'a [u8]),
    /// What stands behind `#!`, to the end of the line.
    Hashbang(&'a [u8]),
    /// Behind the last token.
    End,
}

/// Why no token stands at a place.
#[derive(Clone, Copy, PartialEq, Eq)]
pub enum Fault {
    /// Nothing of the language begins so.
    Unexpected,
    /// A string or a template is not closed.
    Unterminated,
    /// An escape in a string or a name is none.
    BadEscape,
    /// A number is not finished, or a name or a digit stands right behind it.
    BadNumber,
    /// A regular expression is not closed in its line, or is empty.
    BadRegex,
}
