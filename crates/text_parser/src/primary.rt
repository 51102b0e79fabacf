//! Primary expressions and arrow functions (ECMA-262, 13.2 and 15.3).
use crate::expressions::{parse_assignment, parse_expression};
use crate::functions::{parse_binding, parse_class, parse_function};
use crate::members::{parse_elements, parse_new};
use crate::objects::parse_object;
use crate::statements::parse_steps;
use crate::steps::BODY;
use swc_tree_node::{Kind, Node, Word};
use text_lexer::{Goal, Mark, TemplatePart, Token};
use text_reader::{Expected, Keyword, Language, Parser, is_mark};

/// What a primary expression begins with.
#[derive(Clone, Copy)]
enum Primary {
    Name,
    Async,
    Function,
    Class,
    New,
    Paren,
    Array,
    Object,
    Template,
    Import,
    /// What has no parts that nest.
    Leaf,
}

fn by_keyword(keyword: Keyword) -> Primary {
    match keyword {
        Keyword::Async => Primary::Async,
        Keyword::Function => Primary::Function,
        Keyword::Class => Primary::Class,
        Keyword::New => Primary::New,
        Keyword::Import => Primary::Import,
        Keyword::This | Keyword::Super | Keyword::Null | Keyword::True | Keyword::False => {
            Primary::Leaf
        }
        _ => Primary::Name,
    }
}

fn primary_here(p: &Parser<'_>) -> Primary {
    match p.token() {
        Token::Name(_) => match p.keyword() {
            Some(keyword) => by_keyword(keyword),
            None => Primary::Name,
        },
        Token::EscapedName(_) => Primary::Name,
        Token::Mark(Mark::LeftParen) => Primary::Paren,
        Token::Mark(Mark::LeftBracket) => Primary::Array,
        Token::Mark(Mark::LeftBrace) => Primary::Object,
        Token::Template(_, _) => Primary::Template,
        _ => Primary::Leaf,
    }
}

/// A literal, `this` or `super`.
fn push_primary_leaf(p: &mut Parser<'_>) {
    match p.token() {
        Token::Number(text) => p.push_leaf(Kind::Number, Some(text)),
        Token::BigInt(text) => p.push_leaf(Kind::BigInt, Some(text)),
        Token::Str(_) => p.push_string(),
        Token::Mark(Mark::Slash | Mark::DivAssign) => {
            p.reread(Goal::RegExp);
            p.push_regex();
        }
        Token::Mark(Mark::Lt) => p.not_read(Language::Jsx),
        _ => match p.keyword() {
            Some(Keyword::This) => p.push_leaf(Kind::ThisExpr, None),
            Some(Keyword::Super) => p.push_leaf(Kind::Super, None),
            Some(Keyword::Null) => p.push_leaf(Kind::Null, None),
            Some(Keyword::True) => p.push_bool(true),
            Some(Keyword::False) => p.push_bool(false),
            _ => p.unexpected(Expected::Expression),
        },
    }
}

#[cycle(parse)]
pub(crate) fn parse_primary(p: &mut Parser<'_>, depth: u32) {
    if depth == 0 {
        return p.too_deep();
    }
    let (start, before) = (p.start(), p.count());
    match primary_here(p) {
        Primary::Leaf => push_primary_leaf(p),
        Primary::Name => parse_name(p, depth - 1),
        Primary::Async => parse_async(p, depth - 1),
        Primary::Function => parse_function(p, depth - 1, start, false, Kind::FnExpr, false),
        Primary::Class => parse_class(p, depth - 1, Kind::ClassExpr),
        Primary::New => parse_new(p, depth - 1),
        Primary::Paren => parse_paren(p, depth - 1),
        Primary::Template => parse_template(p, depth - 1, false),
        Primary::Object => parse_object(p, depth - 1),
        Primary::Array => {
            p.advance();
            parse_elements(p, depth - 1, Mark::RightBracket);
            p.build(Kind::ArrayLit, start, before)
        }
        Primary::Import => {
            if push_import(p, start) {
                parse_elements(p, depth - 1, Mark::RightParen);
                p.expect_import_arguments();
                p.build(Kind::CallExpr, start, before);
            }
        }
    }
}

/// `import.meta`, or `import` up to its parenthesis, and behind it: whether it is this (13.3.10 and 13.3.12).
fn push_import(p: &mut Parser<'_>, start: usize) -> bool {
    let before = p.count();
    if is_mark(p.peek().token, Mark::LeftParen) {
        p.push_leaf(Kind::Import, None);
        p.advance();
        return true;
    }
    p.advance();
    p.expect(Mark::Dot);
    if !p.is_module {
        p.unexpected(Expected::Expression);
    }
    p.expect_keyword(Keyword::Meta);
    p.push(Node::Word(Word::ImportMeta));
    p.build(Kind::MetaPropExpr, start, before);
    false
}

/// A name, or an arrow function of one parameter.
#[cycle(parse)]
fn parse_name(p: &mut Parser<'_>, depth: u32) {
    if depth == 0 {
        return p.too_deep();
    }
    let (start, before) = (p.start(), p.count());
    if !p.is_name() || !p.may_be_name(p.keyword()) {
        return p.unexpected(Expected::Expression);
    }
    p.push_name(Kind::Ident);
    if p.arrow_at == start && p.is_arrow() {
        p.list(before);
        parse_arrow(p, depth - 1, start, before, false);
    }
}

/// What `async` begins.
#[derive(Clone, Copy)]
enum AsyncForm {
    Function,
    /// An arrow function of one parameter without parentheses.
    Arrow,
    /// Parentheses: the parameters of an arrow function, or the arguments of a call.
    Parens,
    Name,
}

fn async_form(p: &Parser<'_>) -> AsyncForm {
    let next = p.peek();
    if next.ended {
        return AsyncForm::Name;
    }
    if next.keyword == Some(Keyword::Function) {
        return AsyncForm::Function;
    }
    if p.arrow_at != p.start() {
        return AsyncForm::Name;
    }
    match next.token {
        Token::Name(_) => match next.keyword {
            Some(Keyword::In | Keyword::InstanceOf) => AsyncForm::Name,
            _ => AsyncForm::Arrow,
        },
        Token::EscapedName(_) => AsyncForm::Arrow,
        Token::Mark(Mark::LeftParen) => AsyncForm::Parens,
        _ => AsyncForm::Name,
    }
}

/// What begins with `async`, which may be a name.
#[cycle(parse)]
fn parse_async(p: &mut Parser<'_>, depth: u32) {
    if depth == 0 {
        return p.too_deep();
    }
    let (start, before) = (p.start(), p.count());
    match async_form(p) {
        AsyncForm::Name => parse_name(p, depth - 1),
        AsyncForm::Function => {
            p.advance();
            parse_function(p, depth - 1, start, true, Kind::FnExpr, false)
        }
        AsyncForm::Arrow => {
            p.advance();
            p.push_name(Kind::Ident);
            if !p.is_arrow() {
                return p.unexpected(Expected::Mark(Mark::Arrow));
            }
            p.list(before);
            parse_arrow(p, depth - 1, start, before, true)
        }
        AsyncForm::Parens => {
            p.push_name(Kind::Ident);
            p.advance();
            parse_elements(p, depth - 1, Mark::RightParen);
            if p.is_arrow() {
                p.drop_before_last();
                parse_arrow(p, depth - 1, start, before, true)
            } else {
                p.build(Kind::CallExpr, start, before)
            }
        }
    }
}

/// What is in parentheses, besides expressions.
#[derive(Clone, Copy, PartialEq, Eq)]
enum Inside {
    Expressions,
    /// Nothing, a comma behind the last, or a rest: the parameters of an arrow function alone.
    Parameters,
}

/// An expression in parentheses, or an arrow function.
#[cycle(parse)]
fn parse_paren(p: &mut Parser<'_>, depth: u32) {
    if depth == 0 {
        return p.too_deep();
    }
    let (start, before) = (p.start(), p.count());
    let may_be_arrow = p.arrow_at == start;
    p.advance();
    let (inner, context) = (p.start(), p.open());
    let mut inside = Inside::Parameters;
    for _ in 0..p.len() {
        if p.is_mark(Mark::RightParen) || p.is_mark(Mark::Dots) {
            inside = Inside::Parameters;
            break;
        }
        inside = Inside::Expressions;
        parse_assignment(p, depth - 1);
        if !p.take(Mark::Comma) {
            break;
        }
    }
    if p.is_mark(Mark::Dots) {
        let (dots, rest) = (p.start(), p.count());
        p.advance();
        parse_binding(p, depth - 1, false);
        p.build(Kind::RestPat, dots, rest);
    }
    p.context = context;
    let end = p.end();
    p.expect(Mark::RightParen);
    if may_be_arrow && p.is_arrow() {
        p.list(before);
        parse_arrow(p, depth - 1, start, before, false)
    } else if inside == Inside::Parameters {
        p.unexpected(Expected::Mark(Mark::Arrow))
    } else {
        p.build_paren(start, inner, end, before);
    }
}

/// The rest of an arrow function, whose parameters were read as expressions.
#[cycle(parse)]
fn parse_arrow(p: &mut Parser<'_>, depth: u32, start: usize, before: usize, is_async: bool) {
    if depth == 0 {
        return p.too_deep();
    }
    p.last_to_parameters(depth);
    p.advance();
    let context = p.open_function(is_async, false);
    if p.is_mark(Mark::LeftBrace) {
        let body = (p.start(), p.count());
        parse_steps(p, depth - 1, Kind::BlockStmt, BODY, body);
        p.expect_plain_parameters(start);
    } else {
        p.context.has_in = context.has_in;
        parse_assignment(p, depth - 1);
    }
    p.context = context;
    p.push_flag(is_async);
    p.build(Kind::ArrowExpr, start, before)
}

/// The text of a template that stands here: whether it is the last.
fn keep_text_here(p: &mut Parser<'_>, is_tagged: bool) -> bool {
    let Token::Template(part, body) = p.token() else {
        p.unexpected(Expected::Mark(Mark::RightBrace));
        return true;
    };
    let is_tail = matches!(part, TemplatePart::Whole | TemplatePart::Tail);
    p.keep_template_text(body, is_tail, is_tagged);
    p.advance();
    is_tail
}

/// A template (13.2.8).
#[cycle(parse)]
pub(crate) fn parse_template(p: &mut Parser<'_>, depth: u32, is_tagged: bool) {
    if depth == 0 {
        return p.too_deep();
    }
    let (start, before) = (p.start(), p.count());
    let texts = p.texts.len();
    let context = p.open();
    for _ in 0..p.len() {
        if keep_text_here(p, is_tagged) {
            break;
        }
        parse_expression(p, depth - 1);
        if !p.is_mark(Mark::RightBrace) {
            return p.unexpected(Expected::Mark(Mark::RightBrace));
        }
        p.reread(Goal::TemplateTail);
    }
    p.context = context;
    p.list(before);
    p.list_texts(texts);
    p.build(Kind::Tpl, start, before)
}
