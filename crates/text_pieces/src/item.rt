//! What layouts are made of.
use crate::keyword::Keyword;
use text_lexer::Mark;

/// How what has been written ends: with which token it would go on, though a line has ended (ECMA-262, 12.10.1).
#[derive(Clone, Copy, Debug, PartialEq, Eq)]
pub enum Ending {
    /// As an expression: with an operator, an argument list, a member or a template.
    Open,
    /// As `a++`: with an operator.
    Postfix,
    /// With nothing.
    Closed,
    /// As `import "a"`: with `with`.
    From,
    /// As `export {a}`: with `from`.
    Exports,
    /// As a field of a class without a value: with a parenthesis.
    Field,
    /// As a field that is called `get` or `set`: with all but `*`.
    Accessor,
    /// As `let` in a list of statements: as an expression, or with what it would declare.
    Let,
    /// As a field that is called `static`: with all that may follow.
    Any,
    /// As `do ; while (a)`: with nothing, and no line has to end behind it.
    Loop,
}

/// What is written of a field by its form alone. `If`: where something stands in the field, or its flag is set;
/// `Unless`: where not; `IfAny`: where the list in it has items; `UnlessLone`: where the list is not one plain name.
#[derive(Clone, Copy)]
pub enum Form {
    SignIf(Mark),
    SignUnlessLone(Mark),
    WordIf(Keyword),
    WordUnless(Keyword),
    WordIfAny(Keyword),
    HereIf,
    HereUnless,
    EndingUnless(Ending),
    /// A comma that may stand behind the last item.
    Comma,
    /// The same where the list is not one plain name.
    CommaUnlessLone,
    /// The comma behind a last hole.
    Hole,
    Name,
    Number,
    BigInt,
    Private,
    Hashbang,
    /// A dot before a name, and nothing before a computed key.
    Dot,
    /// `get` or `set`.
    Accessor,
    /// `async` where the function is, and no line end behind it.
    Async,
    /// `*` where the function is a generator.
    Star,
    /// A meta property.
    Meta,
    /// The attributes of an import.
    Attributes,
    /// What an import without any names may have.
    Bare,
    /// The braces of an export without any names.
    Braces,
    /// What ends at a block goes on with nothing.
    BlockEnding,
    /// What ends at the key of a field.
    KeyEnding,
    /// What ends at `let` alone, where a declaration may stand.
    LetEnding,
    /// What ends at the attributes of an import, or before them.
    FromEnding,
}

/// One thing after another that a node is written with. A number is that of a field.
#[derive(Clone, Copy)]
pub enum Item {
    Sign(Mark),
    Word(Keyword),
    /// A field as it is written; the items of a list each in a line.
    Part(usize),
    /// A field without its frame, which is that of the whole.
    Within(usize),
    /// The second field, in the frame of the span that the first is.
    At(usize, usize),
    /// Three dots, if the field is their span.
    Dots(usize),
    /// One plain name that may stand in parentheses.
    Lone(usize),
    /// A field as it stands at the head of a `for`.
    Head(usize),
    /// A statement where no declaration by `let` may stand.
    Body(usize),
    /// Where the first field is set, the second as its parent has it apart; else as it is written.
    Apart(usize, usize),
    /// The second field where the first is set.
    If(usize, usize),
    /// The second field where the first is not set.
    Unless(usize, usize),
    /// The items of a field, with commas between them.
    List(usize),
    /// The same where they are not one plain name.
    Others(usize),
    /// The names of an import or export, with their braces.
    Specifiers(usize),
    /// The texts and the parts of a template.
    Template(usize, usize),
    /// A string by its value and how it is written.
    Quoted(usize, usize),
    /// A regular expression by its pattern and its flags.
    Regex(usize, usize),
    /// What the form of a field says.
    Of(usize, Form),
    /// No line ends before what follows (ECMA-262, 12.10).
    Here,
    /// Lines are further in from here on.
    In,
    /// And here they are no longer.
    Out,
    /// How what stands here ends.
    Closes(Ending),
    /// A semicolon that may be left to the reader (ECMA-262, 12.10).
    End,
    /// What no text is written with.
    Never,
}

/// How the items of a list are written.
#[derive(Clone, Copy)]
pub enum Many {
    /// With commas between them.
    List,
    /// As the names of an import or export.
    Specifiers,
    /// Between the texts of a template.
    Template,
}
