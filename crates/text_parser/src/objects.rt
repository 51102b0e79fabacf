//! Objects, and the methods that they share with classes (ECMA-262, 13.2.5 and 15.4).
use crate::expressions::parse_assignment;
use crate::functions::parse_function_rest;
use crate::members::parse_computed;
use swc_tree_node::{Kind, Word};
use text_lexer::{Mark, Token};
use text_reader::{Expected, Keyword, Modifiers, Next, Parser, begins_key, is_mark};

/// Whether a word before a key is one of a method's modifiers, by what stands behind it.
fn modifies(p: &Parser<'_>, next: Next<'_>) -> bool {
    match p.keyword() {
        Some(Keyword::Get | Keyword::Set) => begins_key(next.token),
        Some(Keyword::Async) => {
            !next.ended && (begins_key(next.token) || is_mark(next.token, Mark::Mul))
        }
        _ => false,
    }
}

/// Goes behind the modifiers of a method.
pub(crate) fn take_modifiers(p: &mut Parser<'_>) -> Modifiers {
    let mut modifiers = Modifiers {
        kind: Word::Method,
        is_async: false,
        is_generator: false,
    };
    if modifies(p, p.peek()) {
        match p.keyword() {
            Some(Keyword::Get) => modifiers.kind = Word::Getter,
            Some(Keyword::Set) => modifiers.kind = Word::Setter,
            _ => modifiers.is_async = true,
        }
        p.advance();
    }
    if modifiers.kind == Word::Method {
        modifiers.is_generator = p.take(Mark::Mul);
    }
    modifiers
}

/// An object (13.2.5).
#[cycle(parse)]
pub(crate) fn parse_object(p: &mut Parser<'_>, depth: u32) {
    if depth == 0 {
        return p.too_deep();
    }
    let (start, before) = (p.start(), p.count());
    p.advance();
    let context = p.open();
    for _ in 0..p.len() {
        if p.is_mark(Mark::RightBrace) {
            break;
        }
        parse_property(p, depth - 1);
        if !p.take(Mark::Comma) {
            break;
        }
    }
    p.context = context;
    p.expect(Mark::RightBrace);
    p.list(before);
    p.build(Kind::ObjectLit, start, before)
}

/// Whether a name here stands for a property and its value.
fn is_shorthand(p: &Parser<'_>) -> bool {
    p.is_name()
        && match p.peek().token {
            Token::Mark(mark) => { matches!(mark, Mark::Comma | Mark::RightBrace | Mark::Assign) }
            _ => false,
        }
}

/// A property of an object; a name with a default is one of a pattern.
#[cycle(parse)]
fn parse_property(p: &mut Parser<'_>, depth: u32) {
    if depth == 0 {
        return p.too_deep();
    }
    let (start, before) = (p.start(), p.count());
    if p.take(Mark::Dots) {
        p.push_span(start);
        parse_assignment(p, depth - 1);
        p.close(Kind::SpreadElement, before);
        return p.mind_last_comma(Mark::RightBrace);
    }
    if is_shorthand(p) {
        p.push_name(Kind::Ident);
        if !p.is_mark(Mark::Assign) {
            return;
        }
        p.begin_cover();
        p.advance();
        parse_assignment(p, depth - 1);
        return p.build(Kind::AssignPatProp, start, before);
    }
    let modifiers = take_modifiers(p);
    parse_key(p, depth - 1);
    if p.is_last(Kind::PrivateName) {
        return p.unexpected(Expected::Key);
    }
    if p.is_mark(Mark::LeftParen) || !modifiers.is_plain() {
        let method = p.start();
        parse_function_rest(
            p,
            depth - 1,
            method,
            modifiers.is_async,
            modifiers.is_generator,
        );
        return p.build_property(modifiers.kind, start, before);
    }
    p.expect(Mark::Colon);
    parse_assignment(p, depth - 1);
    p.close(Kind::KeyValueProp, before)
}

/// The key of a property or of a member (13.2.5).
#[cycle(parse)]
pub(crate) fn parse_key(p: &mut Parser<'_>, depth: u32) {
    if depth == 0 {
        return p.too_deep();
    }
    match p.token() {
        Token::Str(_) => p.push_string(),
        Token::Number(text) => p.push_leaf(Kind::Number, Some(text)),
        Token::BigInt(text) => p.push_leaf(Kind::BigInt, Some(text)),
        Token::PrivateName(raw) => p.push_private_name(raw),
        Token::Mark(Mark::LeftBracket) => parse_computed(p, depth - 1, true),
        _ => p.push_key_name(),
    }
}
