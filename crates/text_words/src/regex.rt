//! Regular expressions by their pattern and their flags (ECMA-262, 12.9.5).
ghost use Rattle.std.specs.Prelude.{◌≡◌, ◌≤◌, false, length};
ghost use Rattle.text_lexer.specs.Literals.{after_flags as behind_flags};
ghost use Rattle.text_words.specs.Bodies as bodies;
ghost use Rattle.text_words.specs.Words as spec;

use text_characters::{begins_line_end, behind, first, is_name_part, point};

// Whether no slash in a text closes a pattern, and one behind it does.
#[tactic(auto, using(crate::proofs::Bytes::pattern_drop, crate::proofs::Bytes::pattern_end, std::proofs::lemmas::Grind::common_steps))]
fn is_closed_pattern(text: &[u8]) -> bool
    ensures { result ≡ bodies.pattern_from false false text.now }
{
    let mut in_class = false;
    let mut escaped = false;
    'bytes: for at in 0..text.len() {
        let byte = text[at];
        if begins_line_end(&text[at..]) {
            return false;
        }
        if escaped {
            escaped = false;
        } else {
            if byte == b'/' && !in_class {
                return false;
            }
            in_class = byte == b'[' || in_class && byte != b']';
            escaped = byte == b'\\';
        }
    }
    !in_class && !escaped
}

// Whether a text may stand between slashes.
fn is_pattern(text: &[u8]) -> bool
    ensures { result ≡ bodies.is_pattern text.now }
{
    !text.is_empty() && (first(text) != b'*' && is_closed_pattern(text))
}

// What is left behind the flags of a regular expression.
#[tactic(auto, using(text_lexer::proofs::Walks::flags_rest_step, std::proofs::lemmas::Grind::common_steps))]
fn after_flags(text: &[u8]) -> &[u8]
    ensures value { result.now ≡ behind_flags text.now }
    ensures within { length result.now ≤ length text.now }
{
    let mut rest = text;
    'flags: for turn in 0..text.len() {
        if !is_name_part(point(rest)) {
            return rest;
        }
        rest = behind(rest);
    }
    rest
}

fn are_flags(text: &[u8]) -> bool
    ensures { result ≡ bodies.are_flags text.now }
{
    after_flags(text).is_empty()
}

/// Whether a regular expression is written with a pattern and flags.
///
/// It takes no memory; the time is in step with their lengths.
#[tactic(auto, using(crate::proofs::Regexes::regex_is))]
pub fn is_regex(pattern: &[u8], flags: &[u8]) -> bool
    ensures { result ≡ spec.is_regex pattern.now flags.now }
{
    is_pattern(pattern) && are_flags(flags)
}
