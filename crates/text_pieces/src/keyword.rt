//! Words of the language that layouts have.
//!
//! Printed by tools/print_table.py from tools/layouts.txt.

ghost use Rattle.std.specs.Prelude.{◌≡◌};
ghost use Rattle.text_pieces.specs.Keywords.{keyword_text};

/// A word of the language that a layout has.
#[derive(Clone, Copy, Debug, PartialEq, Eq)]
pub enum Keyword {
    As,
    Async,
    Await,
    Break,
    Case,
    Catch,
    Class,
    Continue,
    Debugger,
    Default,
    Do,
    Else,
    Export,
    Extends,
    False,
    Finally,
    For,
    From,
    Function,
    Get,
    If,
    Import,
    In,
    New,
    Null,
    Of,
    Return,
    Set,
    Static,
    Super,
    Switch,
    This,
    Throw,
    True,
    Try,
    Using,
    While,
    With,
    Yield,
}

/// How a word of the language is written.
pub fn keyword_text(keyword: Keyword) -> &'static str
    ensures { result.now ≡ keyword_text keyword }
{
    match keyword {
        Keyword::As => "as",
        Keyword::Async => "async",
        Keyword::Await => "await",
        Keyword::Break => "break",
        Keyword::Case => "case",
        Keyword::Catch => "catch",
        Keyword::Class => "class",
        Keyword::Continue => "continue",
        Keyword::Debugger => "debugger",
        Keyword::Default => "default",
        Keyword::Do => "do",
        Keyword::Else => "else",
        Keyword::Export => "export",
        Keyword::Extends => "extends",
        Keyword::False => "false",
        Keyword::Finally => "finally",
        Keyword::For => "for",
        Keyword::From => "from",
        Keyword::Function => "function",
        Keyword::Get => "get",
        Keyword::If => "if",
        Keyword::Import => "import",
        Keyword::In => "in",
        Keyword::New => "new",
        Keyword::Null => "null",
        Keyword::Of => "of",
        Keyword::Return => "return",
        Keyword::Set => "set",
        Keyword::Static => "static",
        Keyword::Super => "super",
        Keyword::Switch => "switch",
        Keyword::This => "this",
        Keyword::Throw => "throw",
        Keyword::True => "true",
        Keyword::Try => "try",
        Keyword::Using => "using",
        Keyword::While => "while",
        Keyword::With => "with",
        Keyword::Yield => "yield",
    }
}
