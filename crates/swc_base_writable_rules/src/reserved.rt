//! Reserved words (ECMA-262, 12.7.2).
ghost use Rattle.std.specs.Prelude.{◌≡◌, nat_eq, slice_index};
ghost use Rattle.std.specs.Cmp.Lexicographic.{pointwise};
ghost use Rattle.std.specs.List.{list_any};
ghost use Rattle.swc_tree_grammar.specs.Writable.{reserved};

// The words that are reserved in modules or in strict code, by their first letters.
static FROM_A: [&str; 1] = ["await"];

static FROM_B: [&str; 1] = ["break"];

static FROM_C: [&str; 5] = ["case", "catch", "class", "const", "continue"];

static FROM_D: [&str; 4] = ["debugger", "default", "delete", "do"];

static FROM_E: [&str; 4] = ["else", "enum", "export", "extends"];

static FROM_F: [&str; 4] = ["false", "finally", "for", "function"];

static FROM_I: [&str; 6] = [
    "if",
    "import",
    "in",
    "instanceof",
    "implements",
    "interface",
];

static FROM_L: [&str; 1] = ["let"];

static FROM_N: [&str; 2] = ["new", "null"];

static FROM_P: [&str; 4] = ["package", "private", "protected", "public"];

static FROM_R: [&str; 1] = ["return"];

static FROM_S: [&str; 3] = ["super", "switch", "static"];

static FROM_T: [&str; 5] = ["this", "throw", "true", "try", "typeof"];

static FROM_V: [&str; 2] = ["var", "void"];

static FROM_W: [&str; 2] = ["while", "with"];

static FROM_Y: [&str; 1] = ["yield"];

fn is_one_of(words: &[&str], text: &str) -> bool
    ensures { result ≡ list_any (λ word. pointwise nat_eq text.now word.now) words.now }
{
    words.iter().any(|word| text == *word)
}

// The first byte, or 0 where there is none.
fn first(bytes: &[u8]) -> u8
    ensures { result ≡ slice_index bytes.now 0 }
{
    match bytes {
        [] => 0,
        [first, ..] => *first,
    }
}

/// Whether a text is a word that is reserved in modules or in strict code.
pub(crate) fn is_reserved(text: &str) -> bool
    ensures { result ≡ list_any (pointwise nat_eq text.now) reserved }
{
    match first(text.as_bytes()) {
        b'a' => is_one_of(&FROM_A, text),
        b'b' => is_one_of(&FROM_B, text),
        b'c' => is_one_of(&FROM_C, text),
        b'd' => is_one_of(&FROM_D, text),
        b'e' => is_one_of(&FROM_E, text),
        b'f' => is_one_of(&FROM_F, text),
        b'i' => is_one_of(&FROM_I, text),
        b'l' => is_one_of(&FROM_L, text),
        b'n' => is_one_of(&FROM_N, text),
        b'p' => is_one_of(&FROM_P, text),
        b'r' => is_one_of(&FROM_R, text),
        b's' => is_one_of(&FROM_S, text),
        b't' => is_one_of(&FROM_T, text),
        b'v' => is_one_of(&FROM_V, text),
        b'w' => is_one_of(&FROM_W, text),
        b'y' => is_one_of(&FROM_Y, text),
        _ => false,
    }
}
