//! The token at the front of a text.
ghost use Rattle.std.specs.Prelude.{◌≡◌, ◌<◌, ◌≤◌, true, length, IfOk};
ghost use Rattle.text_lexer.specs.Lexical as spec;
ghost use Rattle.text_lexer.specs.Marks.{spelling as spec_spelling};
ghost use Rattle.text_lexer.specs.Tokens.{token_view, map_ok};

use crate::blank::line_rest;
use crate::literal::{regex_at, string_at, template_at};
use crate::mark::{Mark, marks_from, spelling};
use crate::name::{after_name, named};
use crate::number::{begins_number, number_at};
use crate::plain::{plain_mark, plain_name};
use crate::token::{Fault, Goal, Token};
use text_characters::{first, past_byte};

#[inline]
fn has_regex(goal: Goal) -> bool
    ensures { result ≡ spec.has_regex goal }
{
    match goal {
        Goal::Div | Goal::TemplateTail => false,
        Goal::RegExp | Goal::RegExpOrTemplateTail | Goal::HashbangOrRegExp => true,
    }
}

#[inline]
pub(crate) fn has_template_tail(goal: Goal) -> bool
    ensures { result ≡ spec.has_template_tail goal }
{
    match goal {
        Goal::TemplateTail | Goal::RegExpOrTemplateTail => true,
        Goal::Div | Goal::RegExp | Goal::HashbangOrRegExp => false,
    }
}

#[inline]
fn has_hashbang(goal: Goal) -> bool
    ensures { result ≡ spec.has_hashbang goal }
{
    match goal {
        Goal::HashbangOrRegExp => true,
        Goal::Div | Goal::RegExp | Goal::TemplateTail | Goal::RegExpOrTemplateTail => false,
    }
}

/// Whether what is left may stand behind a punctuator: no decimal digit behind `?.`.
#[inline]
fn may_follow(mark: Mark, rest: &[u8]) -> bool
    ensures { result ≡ spec.may_follow mark rest.now }
{
    match mark {
        Mark::QuestionDot => !first(rest).is_ascii_digit(),
        _ => true,
    }
}

/// Whether a text begins with a punctuator, and goes on as it may behind that.
#[inline]
#[tactic(auto, unfolding(crate::specs::Lexical::begins_mark))]
fn begins_mark(mark: Mark, text: &[u8]) -> bool
    ensures value { result ≡ spec.begins_mark mark text.now }
    ensures within { result ≡ true → length (spec_spelling mark) ≤ length text.now }
{
    let spelling = spelling(mark);
    text.starts_with(spelling) && may_follow(mark, &text[spelling.len()..])
}

fn mark_among<'a>(marks: &[Mark], text: &'a [u8]) -> Result<(Token<'a>, &'a [u8]), Fault>
    ensures value { map_ok (λ p. (token_view p.0, p.1.now)) result ≡ spec.mark_among marks.now text.now }
    ensures shorter { IfOk result (λ p. length p.1.now < length text.now) }
{
    for mark in marks {
        if begins_mark(*mark, text) {
            return Ok((Token::Mark(*mark), &text[spelling(*mark).len()..]));
        }
    }
    Err(Fault::Unexpected)
}

/// What stands behind a number sign: a private name, or at the beginning of a text the line behind `#!`.
fn hash_at(goal: Goal, text: &[u8]) -> Result<(Token<'_>, &[u8]), Fault>
    ensures value { map_ok (λ p. (token_view p.0, p.1.now)) result ≡ spec.hash_at goal text.now }
    ensures within { IfOk result (λ p. length p.1.now ≤ length text.now) }
{
    if has_hashbang(goal) && first(text) == b'!' {
        let line = &text[1..];
        let rest = line_rest(line);
        Ok((Token::Hashbang(&line[..line.len() - rest.len()]), rest))
    } else {
        let rest = after_name(text).ok_or(Fault::Unexpected)?;
        let name = &text[..text.len() - rest.len()];
        Ok((Token::PrivateName(name), rest))
    }
}

/// A token that begins with a sign.
#[tactic(auto, unfolding(crate::specs::Lexical::sign_at))]
fn sign_at(goal: Goal, text: &[u8]) -> Result<(Token<'_>, &[u8]), Fault>
    ensures value { map_ok (λ p. (token_view p.0, p.1.now)) result ≡ spec.sign_at goal text.now }
    ensures shorter { IfOk result (λ p. length p.1.now < length text.now) }
{
    match first(text) {
        b'"' | b'\'' => string_at(text),
        b'`' => template_at(text),
        b'}' if has_template_tail(goal) => template_at(text),
        b'/' if has_regex(goal) => regex_at(text),
        b'#' => hash_at(goal, past_byte(text)),
        b'\\' => Err(Fault::BadEscape),
        byte => mark_among(marks_from(byte), text),
    }
}

/// The same of any text.
#[tactic(auto, unfolding(crate::specs::Lexical::token_at))]
#[inline(never)]
fn other_token(goal: Goal, text: &[u8]) -> Result<(Token<'_>, &[u8]), Fault>
    ensures value { map_ok (λ p. (token_view p.0, p.1.now)) result ≡ spec.token_at goal text.now }
    ensures shorter { 0 < length text.now → IfOk result (λ p. length p.1.now < length text.now) }
{
    if text.is_empty() {
        Ok((Token::End, text))
    } else if let Some(rest) = after_name(text) {
        Ok((named(&text[..text.len() - rest.len()]), rest))
    } else if begins_number(text) {
        number_at(text)
    } else {
        sign_at(goal, text)
    }
}

/// The token at the front of a text by the lexical goal of its place, and the text behind it (ECMA-262, 12). Before it stand
/// no white space and no comment.
pub fn token_at(goal: Goal, text: &[u8]) -> Result<(Token<'_>, &[u8]), Fault>
    ensures value { map_ok (λ p. (token_view p.0, p.1.now)) result ≡ spec.token_at goal text.now }
    ensures shorter { 0 < length text.now → IfOk result (λ p. length p.1.now < length text.now) }
{
    let len = plain_name(goal, text);
    if 0 < len {
        return Ok((Token::Name(&text[..len]), &text[len..]));
    }
    if let Some(mark) = plain_mark(goal, text) {
        return Ok((Token::Mark(mark), past_byte(text)));
    }
    other_token(goal, text)
}
