//! Functions, what they bind, and classes (ECMA-262, 15).
use crate::expressions::parse_assignment;
use crate::members::parse_postfix;
use crate::objects::{parse_key, take_modifiers};
use crate::primary::parse_primary;
use crate::statements::parse_steps;
use crate::steps::{BODY, STATIC_BODY};
use swc_tree_node::{Kind, Node};
use text_lexer::{Mark, Token};
use text_reader::{Expected, Keyword, Language, Parser, begins_key};

/// A function from `function` on, as a declaration or an expression; where it begins is told (15.2). `hangs` says that it stands
/// behind a label, an `if` or an `else`, where it is no generator (14.13 and B.3.3).
#[cycle(parse)]
pub(crate) fn parse_function(
    p: &mut Parser<'_>,
    depth: u32,
    start: usize,
    is_async: bool,
    kind: Kind,
    hangs: bool,
) {
    if depth == 0 {
        return p.too_deep();
    }
    let before = p.count();
    p.advance();
    if hangs && p.is_mark(Mark::Mul) {
        return p.unexpected(Expected::Name);
    }
    let is_generator = p.take(Mark::Mul);
    if kind == Kind::FnExpr && p.is_mark(Mark::LeftParen) {
        p.push_absent();
    } else if kind == Kind::FnExpr {
        let context = p.open_function(is_async, is_generator);
        p.push_name(Kind::Ident);
        p.context = context;
    } else {
        p.push_name(Kind::Ident);
    }
    parse_function_rest(p, depth - 1, start, is_async, is_generator);
    p.close(kind, before)
}

/// The parameters and the body of a function, which begins at a place.
#[cycle(parse)]
pub(crate) fn parse_function_rest(
    p: &mut Parser<'_>,
    depth: u32,
    start: usize,
    is_async: bool,
    is_generator: bool,
) {
    if depth == 0 {
        return p.too_deep();
    }
    let before = p.count();
    let context = p.open_function(is_async, is_generator);
    parse_parameters(p, depth - 1);
    let body = (p.start(), p.count());
    parse_steps(p, depth - 1, Kind::BlockStmt, BODY, body);
    p.expect_plain_parameters(start);
    p.context = context;
    p.push_flag(is_generator);
    p.push_flag(is_async);
    p.build(Kind::Function, start, before)
}

/// Parameters in parentheses (15.1).
#[cycle(parse)]
fn parse_parameters(p: &mut Parser<'_>, depth: u32) {
    if depth == 0 {
        return p.too_deep();
    }
    p.expect(Mark::LeftParen);
    let before = p.count();
    for _ in 0..p.len() {
        if p.is_mark(Mark::RightParen) {
            break;
        }
        let (start, parameter) = (p.start(), p.count());
        let is_rest = p.take(Mark::Dots);
        parse_binding(p, depth - 1, !is_rest);
        if is_rest {
            p.build(Kind::RestPat, start, parameter);
        }
        p.build(Kind::Param, start, parameter);
        if is_rest || !p.take(Mark::Comma) {
            break;
        }
    }
    if p.is_mark(Mark::Colon) || p.is_mark(Mark::Question) {
        return p.not_read(Language::Types);
    }
    p.expect(Mark::RightParen);
    p.list(before)
}

/// What a value is bound to, with its default if it may have one (14.3.3).
#[cycle(parse)]
pub(crate) fn parse_binding(p: &mut Parser<'_>, depth: u32, has_default: bool) {
    if depth == 0 {
        return p.too_deep();
    }
    let (start, before) = (p.start(), p.count());
    match p.token() {
        Token::Mark(Mark::LeftBracket | Mark::LeftBrace) => {
            parse_primary(p, depth - 1);
            p.last_to_binding(depth);
        }
        _ => p.push_name(Kind::BindingIdent),
    }
    if !has_default || !p.take(Mark::Assign) {
        return;
    }
    parse_assignment(p, depth - 1);
    p.build(Kind::AssignPat, start, before)
}

/// A class, as a declaration or an expression (15.7).
#[cycle(parse)]
pub(crate) fn parse_class(p: &mut Parser<'_>, depth: u32, kind: Kind) {
    if depth == 0 {
        return p.too_deep();
    }
    let (start, before) = (p.start(), p.count());
    p.advance();
    let context = p.open();
    p.context.is_strict = true;
    if kind == Kind::ClassDecl || p.is_name() && !p.is_keyword(Keyword::Extends) {
        p.push_name(Kind::Ident);
    } else {
        p.push_absent();
    }
    let class = p.count();
    if p.take_keyword(Keyword::Extends) {
        parse_postfix(p, depth - 1);
    } else {
        p.push_absent();
    }
    p.expect(Mark::LeftBrace);
    let members = p.count();
    let mut has_constructor = false;
    for _ in 0..p.len() {
        if p.is_mark(Mark::RightBrace) || p.is_refused() {
            break;
        }
        let member = p.start();
        parse_member(p, depth - 1);
        mind_constructor(p, member, &mut has_constructor);
    }
    p.context = context;
    p.expect(Mark::RightBrace);
    p.list(members);
    p.build(Kind::Class, start, class);
    p.close(kind, before)
}

/// Sees to it that a class has one constructor at most (15.7.1); where the last member begins is told.
fn mind_constructor(p: &mut Parser<'_>, at: usize, has_one: &mut bool) {
    if !p.is_last(Kind::Constructor) {
        return;
    }
    if *has_one {
        p.unexpected_at(at, Expected::Key);
    }
    *has_one = true;
}

/// What `static` is at the beginning of a member.
#[derive(Clone, Copy, PartialEq, Eq)]
enum Static {
    No,
    Modifier,
    Block,
}

/// Goes behind `static` where it is a modifier, and answers what it is.
fn take_static(p: &mut Parser<'_>) -> Static {
    let form = static_here(p);
    if form == Static::Modifier {
        p.advance();
    }
    form
}

fn static_here(p: &Parser<'_>) -> Static {
    if !p.is_keyword(Keyword::Static) {
        return Static::No;
    }
    match p.peek().token {
        Token::Mark(Mark::LeftBrace) => Static::Block,
        Token::Mark(Mark::Mul) => Static::Modifier,
        token => {
            if begins_key(token) {
                Static::Modifier
            } else {
                Static::No
            }
        }
    }
}

/// A member of a class (15.7).
#[cycle(parse)]
fn parse_member(p: &mut Parser<'_>, depth: u32) {
    if depth == 0 {
        return p.too_deep();
    }
    let (start, before) = (p.start(), p.count());
    if p.take(Mark::Semicolon) {
        return p.build(Kind::EmptyStmt, start, before);
    }
    let form = take_static(p);
    if form == Static::Block {
        let context = p.open_function(false, false);
        parse_steps(p, depth - 1, Kind::BlockStmt, STATIC_BODY, (start, before));
        p.context = context;
        return p.build(Kind::StaticBlock, start, before);
    }
    let is_static = form == Static::Modifier;
    let modifiers = take_modifiers(p);
    parse_key(p, depth - 1);
    if p.is_mark(Mark::LeftParen) || !modifiers.is_plain() {
        let method = p.start();
        parse_function_rest(
            p,
            depth - 1,
            method,
            modifiers.is_async,
            modifiers.is_generator,
        );
        return p.build_method(modifiers, is_static, start, before);
    }
    let context = p.open_function(false, false);
    if p.take(Mark::Assign) {
        parse_assignment(p, depth - 1);
    } else {
        p.push_absent();
    }
    p.context = context;
    p.end_statement();
    p.push(Node::Flag(is_static));
    p.build_field(start, before);
}
