//! Reserved words (ECMA-262, 12.7.2).
ghost use Rattle.std.specs.Prelude.{◌≡◌, nat_eq};
ghost use Rattle.std.specs.Cmp.Lexicographic.{pointwise};
ghost use Rattle.std.specs.List.{list_any};
ghost use Rattle.text_words.specs.Words as spec;

use text_characters::first;

// By their first letters; but for `await` and `yield`.
static FROM_B: [&str; 1] = ["break"];

static FROM_C: [&str; 5] = ["case", "catch", "class", "const", "continue"];

static FROM_D: [&str; 4] = ["debugger", "default", "delete", "do"];

static FROM_E: [&str; 4] = ["else", "enum", "export", "extends"];

static FROM_F: [&str; 4] = ["false", "finally", "for", "function"];

static FROM_I: [&str; 4] = ["if", "import", "in", "instanceof"];

static FROM_N: [&str; 2] = ["new", "null"];

static FROM_R: [&str; 1] = ["return"];

static FROM_S: [&str; 2] = ["super", "switch"];

static FROM_T: [&str; 5] = ["this", "throw", "true", "try", "typeof"];

static FROM_V: [&str; 2] = ["var", "void"];

static FROM_W: [&str; 2] = ["while", "with"];

fn is_one_of(words: &[&str], text: &str) -> bool
    ensures { result ≡ list_any (λ word. pointwise nat_eq text.now word.now) words.now }
{
    words.iter().any(|word| text == *word)
}

/// Whether a name is a reserved word, other than `await` and `yield`, which are names in some code.
pub fn is_reserved(text: &str) -> bool
    ensures { result ≡ spec.is_reserved text.now }
{
    match first(text.as_bytes()) {
        b'b' => is_one_of(&FROM_B, text),
        b'c' => is_one_of(&FROM_C, text),
        b'd' => is_one_of(&FROM_D, text),
        b'e' => is_one_of(&FROM_E, text),
        b'f' => is_one_of(&FROM_F, text),
        b'i' => is_one_of(&FROM_I, text),
        b'n' => is_one_of(&FROM_N, text),
        b'r' => is_one_of(&FROM_R, text),
        b's' => is_one_of(&FROM_S, text),
        b't' => is_one_of(&FROM_T, text),
        b'v' => is_one_of(&FROM_V, text),
        b'w' => is_one_of(&FROM_W, text),
        _ => false,
    }
}
