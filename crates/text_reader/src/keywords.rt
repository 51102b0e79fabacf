//! The words that the grammar knows (ECMA-262, 12.7.2).

/// A word that the grammar knows: a reserved word, or a name that means more in some places.
#[derive(Clone, Copy, PartialEq, Eq)]
pub enum Keyword {
    As,
    Async,
    Await,
    Break,
    Case,
    Catch,
    Class,
    Const,
    Continue,
    Debugger,
    Default,
    Delete,
    Do,
    Else,
    Enum,
    Export,
    Extends,
    False,
    Finally,
    For,
    From,
    Function,
    Get,
    If,
    Implements,
    Import,
    In,
    InstanceOf,
    Interface,
    Let,
    Meta,
    New,
    Null,
    Of,
    Package,
    Private,
    Protected,
    Public,
    Return,
    Set,
    Static,
    Super,
    Switch,
    Target,
    This,
    Throw,
    True,
    Try,
    TypeOf,
    Using,
    Var,
    Void,
    While,
    With,
    Yield,
}

type Entry = (&'static str, Keyword);

const FROM_A: &[Entry] = &[
    ("as", Keyword::As),
    ("async", Keyword::Async),
    ("await", Keyword::Await),
];

const FROM_B: &[Entry] = &[("break", Keyword::Break)];

const FROM_C: &[Entry] = &[
    ("case", Keyword::Case),
    ("const", Keyword::Const),
    ("class", Keyword::Class),
    ("catch", Keyword::Catch),
    ("continue", Keyword::Continue),
];

const FROM_D: &[Entry] = &[
    ("do", Keyword::Do),
    ("delete", Keyword::Delete),
    ("default", Keyword::Default),
    ("debugger", Keyword::Debugger),
];

const FROM_E: &[Entry] = &[
    ("else", Keyword::Else),
    ("enum", Keyword::Enum),
    ("export", Keyword::Export),
    ("extends", Keyword::Extends),
];

const FROM_F: &[Entry] = &[
    ("for", Keyword::For),
    ("from", Keyword::From),
    ("false", Keyword::False),
    ("finally", Keyword::Finally),
    ("function", Keyword::Function),
];

const FROM_G: &[Entry] = &[("get", Keyword::Get)];

const FROM_I: &[Entry] = &[
    ("if", Keyword::If),
    ("in", Keyword::In),
    ("import", Keyword::Import),
    ("interface", Keyword::Interface),
    ("instanceof", Keyword::InstanceOf),
    ("implements", Keyword::Implements),
];

const FROM_L: &[Entry] = &[("let", Keyword::Let)];

const FROM_M: &[Entry] = &[("meta", Keyword::Meta)];

const FROM_N: &[Entry] = &[("new", Keyword::New), ("null", Keyword::Null)];

const FROM_O: &[Entry] = &[("of", Keyword::Of)];

const FROM_P: &[Entry] = &[
    ("public", Keyword::Public),
    ("package", Keyword::Package),
    ("private", Keyword::Private),
    ("protected", Keyword::Protected),
];

const FROM_R: &[Entry] = &[("return", Keyword::Return)];

const FROM_S: &[Entry] = &[
    ("set", Keyword::Set),
    ("super", Keyword::Super),
    ("static", Keyword::Static),
    ("switch", Keyword::Switch),
];

const FROM_T: &[Entry] = &[
    ("try", Keyword::Try),
    ("this", Keyword::This),
    ("true", Keyword::True),
    ("throw", Keyword::Throw),
    ("typeof", Keyword::TypeOf),
    ("target", Keyword::Target),
];

const FROM_U: &[Entry] = &[("using", Keyword::Using)];

const FROM_V: &[Entry] = &[("var", Keyword::Var), ("void", Keyword::Void)];

const FROM_W: &[Entry] = &[("with", Keyword::With), ("while", Keyword::While)];

const FROM_Y: &[Entry] = &[("yield", Keyword::Yield)];

/// The words that begin with a letter.
fn words_from(letter: u8) -> &'static [Entry] {
    match letter {
        b'a' => FROM_A,
        b'b' => FROM_B,
        b'c' => FROM_C,
        b'd' => FROM_D,
        b'e' => FROM_E,
        b'f' => FROM_F,
        b'g' => FROM_G,
        b'i' => FROM_I,
        b'l' => FROM_L,
        b'm' => FROM_M,
        b'n' => FROM_N,
        b'o' => FROM_O,
        b'p' => FROM_P,
        b'r' => FROM_R,
        b's' => FROM_S,
        b't' => FROM_T,
        b'u' => FROM_U,
        b'v' => FROM_V,
        b'w' => FROM_W,
        b'y' => FROM_Y,
        _ => &[],
    }
}

/// The word that a name is, if the grammar knows it.
pub fn keyword_of(name: &[u8]) -> Option<Keyword> {
    let letter = match name {
        [first, ..] => *first,
        [] => return None,
    };
    for (word, keyword) in words_from(letter) {
        if name == word.as_bytes() {
            return Some(*keyword);
        }
    }
    None
}

/// How a word is written.
pub fn spelling_of(keyword: Keyword) -> &'static str {
    for letter in b'a'..=b'z' {
        for (word, known) in words_from(letter) {
            if *known == keyword {
                return word;
            }
        }
    }
    ""
}

/// Whether a word is reserved in each context (ECMA-262, ReservedWord), but for `await` and `yield`.
pub fn is_reserved(keyword: Keyword) -> bool {
    !is_name_somewhere(keyword)
}

/// Whether a name may be written so in some context.
fn is_name_somewhere(keyword: Keyword) -> bool {
    match keyword {
        Keyword::As
        | Keyword::Async
        | Keyword::Await
        | Keyword::From
        | Keyword::Get
        | Keyword::Meta
        | Keyword::Of
        | Keyword::Set
        | Keyword::Target
        | Keyword::Using => true,
        _ => is_reserved_in_strict(keyword),
    }
}

/// Whether a word is reserved in strict code alone (ECMA-262, 12.7.2).
pub fn is_reserved_in_strict(keyword: Keyword) -> bool {
    matches!(
        keyword,
        Keyword::Implements
            | Keyword::Interface
            | Keyword::Let
            | Keyword::Package
            | Keyword::Private
            | Keyword::Protected
            | Keyword::Public
            | Keyword::Static
            | Keyword::Yield
    )
}
