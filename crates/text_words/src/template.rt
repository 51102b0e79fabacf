//! Texts of templates by their value and as they are written (ECMA-262, 12.9.6).
ghost use Rattle.std.specs.Prelude.{◌≡◌, false};
ghost use Rattle.std.specs.Option.{option_copied};
ghost use Rattle.text_words.specs.Bodies as bodies;
ghost use Rattle.text_words.specs.Words as spec;

use text_characters::byte_at;
use text_strings::Reading;
use text_values::{cooks_to, has_good_escapes, raw_is};

// Whether nothing in a text closes a template, and a backquote behind it does.
#[tactic(auto, using(crate::proofs::Bytes::characters_drop, crate::proofs::Bytes::characters_end, std::proofs::lemmas::Grind::common_steps))]
fn is_closed_template(text: &[u8]) -> bool
    ensures { result ≡ bodies.characters_from false text.now }
{
    let mut escaped = false;
    'bytes: for at in 0..text.len() {
        let byte = text[at];
        if !escaped && byte == b'`' {
            return false;
        }
        if !escaped && (byte == b'$' && byte_at(text, at + 1) == b'{') {
            return false;
        }
        escaped = !escaped && byte == b'\\';
    }
    !escaped
}

fn is_cooked(raw: &[u8], value: Option<&str>) -> bool
    ensures { result ≡ spec.is_cooked raw.now (option_copied value.entry) }
{
    match value {
        Some(value) => cooks_to(Reading::Template, raw, value.as_bytes()),
        None => !has_good_escapes(Reading::Template, raw),
    }
}

/// Whether a text of a template is written so, and has a value, or none where its escapes have none.
///
/// It takes no memory; the time is in step with the lengths.
pub fn is_template(value: Option<&str>, raw: &[u8]) -> bool
    ensures { result ≡ spec.is_template (option_copied value.entry) raw.now }
{
    is_closed_template(raw) && (raw_is(raw, raw) && is_cooked(raw, value))
}
