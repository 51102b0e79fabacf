//! Texts that are one token as they stand.
ghost use Rattle.std.specs.Prelude.{◌≡◌, ◌==◌, length};
ghost use Rattle.text_lexer.specs.Blanks.{line_rest};
ghost use Rattle.text_lexer.specs.Tokens.{token_view};
ghost use Rattle.text_words.specs.Words as spec;

use text_characters::begins_line_end;
use text_lexer::{Goal, Token, token_at};
use text_strings::Reading;
use text_values::cooks_to;

fn is_name_token(token: Token<'_>) -> bool
    ensures { result ≡ spec.is_name_token (token_view token.entry) }
{
    match token {
        Token::Name(_) => true,
        _ => false,
    }
}

fn is_number_token(token: Token<'_>) -> bool
    ensures { result ≡ spec.is_number_token (token_view token.entry) }
{
    match token {
        Token::Number(_) => true,
        _ => false,
    }
}

fn is_big_integer_token(token: Token<'_>) -> bool
    ensures { result ≡ spec.is_big_integer_token (token_view token.entry) }
{
    match token {
        Token::BigInt(_) => true,
        _ => false,
    }
}

// Whether a token is a string of a value.
fn is_string_token(value: &[u8], token: Token<'_>) -> bool
    ensures { result ≡ spec.is_string_token value.now (token_view token.entry) }
{
    match token {
        Token::Str(body) => cooks_to(Reading::Quoted, body, value),
        _ => false,
    }
}

// Whether bytes are read as a name.
fn reads_name(text: &[u8]) -> bool
    ensures { result ≡ spec.reads_name text.now }
{
    match token_at(Goal::Div, text) {
        Ok((token, rest)) => is_name_token(token) && rest.is_empty(),
        Err(_) => false,
    }
}

/// Whether a text is a name, with no escape in it; it may be a word of the language.
pub fn is_name(text: &str) -> bool
    ensures { result ≡ spec.is_name text.now }
{
    reads_name(text.as_bytes())
}

/// Whether a text is a number, as it is written.
pub fn is_number(text: &[u8]) -> bool
    ensures { result ≡ spec.is_number text.now }
{
    match token_at(Goal::Div, text) {
        Ok((token, rest)) => is_number_token(token) && rest.is_empty(),
        Err(_) => false,
    }
}

/// Whether a text is a big integer, as it is written, with its `n`.
pub fn is_big_integer(text: &[u8]) -> bool
    ensures { result ≡ spec.is_big_integer text.now }
{
    match token_at(Goal::Div, text) {
        Ok((token, rest)) => is_big_integer_token(token) && rest.is_empty(),
        Err(_) => false,
    }
}

/// Whether a text, with its quotes, is a string of a value.
pub fn is_string(value: &[u8], raw: &[u8]) -> bool
    ensures { result ≡ spec.is_string value.now raw.now }
{
    match token_at(Goal::Div, raw) {
        Ok((token, rest)) => is_string_token(value, token) && rest.is_empty(),
        Err(_) => false,
    }
}

// Whether no line ends in a text.
#[tactic(auto, using(text_lexer::proofs::Bytes::line_rest_drop, text_lexer::proofs::Bytes::line_rest_end, std::proofs::lemmas::Grind::common_steps))]
fn is_one_line(text: &[u8]) -> bool
    ensures { result ≡ (length (line_rest text.now) == 0) }
{
    'bytes: for at in 0..text.len() {
        if begins_line_end(&text[at..]) {
            return false;
        }
    }
    true
}

/// Whether behind `#!` a text is the rest of a line.
#[tactic(auto, using(crate::proofs::Begun::hashbang_is))]
pub fn is_hashbang(text: &[u8]) -> bool
    ensures { result ≡ spec.is_hashbang text.now }
{
    is_one_line(text)
}
