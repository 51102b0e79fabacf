//! Members, calls, optional chains and `new` (ECMA-262, 13.3).
use crate::expressions::{parse_assignment, parse_expression};
use crate::primary::{parse_primary, parse_template};
use swc_tree_node::{Kind, Node, Word};
use text_lexer::{Mark, Token};
use text_reader::{Expected, Keyword, Parser};

/// What stands behind an expression.
#[derive(Clone, Copy, PartialEq, Eq)]
enum Suffix {
    Member,
    Computed,
    Arguments,
    Template,
    Optional,
}

fn suffix_here(p: &Parser<'_>, calls: bool) -> Option<Suffix> {
    match p.token() {
        Token::Mark(Mark::Dot) => Some(Suffix::Member),
        Token::Mark(Mark::LeftBracket) => Some(Suffix::Computed),
        Token::Mark(Mark::LeftParen) if calls => Some(Suffix::Arguments),
        Token::Mark(Mark::QuestionDot) if calls => Some(Suffix::Optional),
        Token::Template(_, _) => Some(Suffix::Template),
        _ => None,
    }
}

/// An operand with its members and calls.
#[cycle(parse)]
pub(crate) fn parse_postfix(p: &mut Parser<'_>, depth: u32) {
    if depth == 0 {
        return p.too_deep();
    }
    let (start, before) = (p.start(), p.count());
    parse_primary(p, depth - 1);
    if p.is_last(Kind::ArrowExpr) {
        return;
    }
    parse_suffixes(p, depth - 1, start, before, true)
}

#[cycle(parse)]
fn parse_suffixes(p: &mut Parser<'_>, depth: u32, start: usize, before: usize, calls: bool) {
    if depth == 0 {
        return p.too_deep();
    }
    let mut chained = false;
    for _ in 0..p.len() {
        let Some(suffix) = suffix_here(p, calls) else {
            break;
        };
        chained = chained || suffix == Suffix::Optional;
        parse_suffix(p, depth - 1, suffix, chained);
        build_suffixed(p, suffix, chained, start, before);
    }
    if p.is_at(before, Kind::Super) {
        p.unexpected(Expected::Mark(Mark::Dot));
    }
}

/// What stands behind `?.`.
fn behind_optional(p: &mut Parser<'_>) -> Suffix {
    p.advance();
    match suffix_here(p, true) {
        Some(Suffix::Computed) => Suffix::Computed,
        Some(Suffix::Arguments) => Suffix::Arguments,
        _ => Suffix::Optional,
    }
}

/// One thing behind an expression: a key, or a list of arguments, or a template.
#[cycle(parse)]
fn parse_suffix(p: &mut Parser<'_>, depth: u32, suffix: Suffix, chained: bool) {
    if depth == 0 {
        return p.too_deep();
    }
    let suffix = match suffix {
        Suffix::Optional => behind_optional(p),
        other => other,
    };
    match suffix {
        Suffix::Arguments => {
            p.advance();
            parse_elements(p, depth - 1, Mark::RightParen)
        }
        Suffix::Computed => parse_computed(p, depth - 1, false),
        Suffix::Template if !chained => parse_template(p, depth - 1, true),
        Suffix::Template => p.unexpected(Expected::Semicolon),
        Suffix::Member => {
            p.advance();
            push_member_name(p)
        }
        Suffix::Optional => push_member_name(p),
    }
}

fn push_member_name(p: &mut Parser<'_>) {
    match p.token() {
        Token::PrivateName(raw) => p.push_private_name(raw),
        _ => p.push_key_name(),
    }
}

fn kind_of_suffixed(p: &Parser<'_>, before: usize, chained: bool) -> Kind {
    if p.is_last(Kind::Tpl) {
        Kind::TaggedTpl
    } else if !p.is_last_list() {
        if p.is_at(before, Kind::Super) {
            Kind::SuperPropExpr
        } else {
            Kind::MemberExpr
        }
    } else if chained {
        Kind::OptCall
    } else {
        Kind::CallExpr
    }
}

fn build_suffixed(p: &mut Parser<'_>, suffix: Suffix, chained: bool, start: usize, before: usize) {
    let kind = kind_of_suffixed(p, before, chained);
    let is_super = p.is_at(before, Kind::Super);
    if is_super && (chained || kind == Kind::TaggedTpl || p.is_last(Kind::PrivateName)) {
        return p.unexpected(Expected::Key);
    }
    p.build(kind, start, before);
    if chained {
        let optional = suffix == Suffix::Optional;
        p.build_with(Kind::OptChainExpr, Node::Flag(optional), start, before);
    }
}

/// An expression in brackets: the key of a member, or one in an object or a class, which has no commas.
#[cycle(parse)]
pub(crate) fn parse_computed(p: &mut Parser<'_>, depth: u32, declares: bool) {
    if depth == 0 {
        return p.too_deep();
    }
    let (start, before) = (p.start(), p.count());
    p.advance();
    let context = p.open();
    parse_expression(p, depth - 1);
    p.context = context;
    if declares && p.is_last(Kind::SeqExpr) {
        return p.unexpected(Expected::Expression);
    }
    p.expect(Mark::RightBracket);
    p.build(Kind::ComputedPropName, start, before)
}

/// Makes the span of the dots that stand here, if some do, and goes behind them: whether they do.
fn push_dots(p: &mut Parser<'_>) -> bool {
    let start = p.start();
    let has_dots = p.take(Mark::Dots);
    if has_dots {
        p.push_span(start);
    } else {
        p.push_absent();
    }
    has_dots
}

/// The arguments of a call or the elements of an array, up to the punctuator that closes them, and behind it. An
/// array may lack some.
#[cycle(parse)]
pub(crate) fn parse_elements(p: &mut Parser<'_>, depth: u32, closing: Mark) {
    if depth == 0 {
        return p.too_deep();
    }
    let before = p.count();
    let context = p.open();
    for _ in 0..p.len() {
        if p.is_mark(closing) {
            break;
        }
        if closing == Mark::RightBracket && p.is_mark(Mark::Comma) {
            p.push_absent();
            p.advance();
            continue;
        }
        let element = p.count();
        let has_dots = push_dots(p);
        parse_assignment(p, depth - 1);
        p.close(Kind::ExprOrSpread, element);
        if has_dots {
            p.mind_last_comma(closing);
        }
        if !p.take(Mark::Comma) {
            break;
        }
    }
    p.context = context;
    p.expect(closing);
    p.list(before)
}

/// `new.target`, behind its dot.
fn push_new_target(p: &mut Parser<'_>, start: usize) {
    let before = p.count();
    p.expect_keyword(Keyword::Target);
    p.push(Node::Word(Word::NewTarget));
    p.build(Kind::MetaPropExpr, start, before)
}

/// `new`, with arguments or without.
#[cycle(parse)]
pub(crate) fn parse_new(p: &mut Parser<'_>, depth: u32) {
    if depth == 0 {
        return p.too_deep();
    }
    let (start, before) = (p.start(), p.count());
    p.advance();
    if p.take(Mark::Dot) {
        return push_new_target(p, start);
    }
    let callee = p.start();
    parse_primary(p, depth - 1);
    if p.is_last(Kind::CallExpr) {
        return p.unexpected(Expected::Expression);
    }
    parse_suffixes(p, depth - 1, callee, before, false);
    if p.take(Mark::LeftParen) {
        parse_elements(p, depth - 1, Mark::RightParen);
    } else if p.is_mark(Mark::QuestionDot) {
        return p.unexpected(Expected::Mark(Mark::LeftParen));
    } else {
        p.push_absent();
    }
    p.build(Kind::NewExpr, start, before)
}
