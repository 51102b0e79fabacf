//! Expressions, but for what stands next to their operators (ECMA-262, 13.4 to 13.16).
use crate::members::parse_postfix;
use swc_tree_node::{Kind, Node, Word};
use text_lexer::{Mark, Token};
use text_reader::{
    COMPARISON, Expected, Keyword, LOOSEST, Operator, Parser, Prefix, assignment, binary_keyword,
    binary_mark, prefix_keyword, prefix_mark,
};

/// Expressions with commas between them (13.16).
#[cycle(parse)]
pub(crate) fn parse_expression(p: &mut Parser<'_>, depth: u32) {
    if depth == 0 {
        return p.too_deep();
    }
    let (start, before) = (p.start(), p.count());
    parse_assignment(p, depth - 1);
    if !p.is_mark(Mark::Comma) {
        return;
    }
    for _ in 0..p.len() {
        if !p.take(Mark::Comma) {
            break;
        }
        parse_assignment(p, depth - 1);
    }
    p.list(before);
    p.build(Kind::SeqExpr, start, before)
}

fn assignment_here(p: &Parser<'_>) -> Option<Word> {
    match p.token() {
        Token::Mark(mark) => assignment(mark),
        _ => None,
    }
}

/// An assignment, an arrow function, a `yield` or a choice (13.15).
#[cycle(parse)]
pub(crate) fn parse_assignment(p: &mut Parser<'_>, depth: u32) {
    if depth == 0 {
        return p.too_deep();
    }
    if p.is_keyword(Keyword::Yield) && p.context.has_yield {
        return parse_yield(p, depth - 1);
    }
    let (start, before) = (p.start(), p.count());
    p.arrow_at = start;
    parse_conditional(p, depth - 1);
    let Some(word) = assignment_here(p) else {
        return;
    };
    p.last_to_target(word, depth);
    p.advance();
    parse_assignment(p, depth - 1);
    p.build_with(Kind::AssignExpr, Node::Word(word), start, before)
}

/// Whether nothing stands behind a `yield` here.
fn is_bare_yield(p: &Parser<'_>) -> bool {
    match p.token() {
        Token::End => true,
        Token::Mark(mark) => {
            p.line_ended()
                || matches!(
                    mark,
                    Mark::RightParen
                        | Mark::RightBracket
                        | Mark::RightBrace
                        | Mark::Comma
                        | Mark::Semicolon
                        | Mark::Colon
                )
        }
        _ => p.line_ended() || p.is_keyword(Keyword::In),
    }
}

/// `yield` (15.5).
#[cycle(parse)]
fn parse_yield(p: &mut Parser<'_>, depth: u32) {
    if depth == 0 {
        return p.too_deep();
    }
    let (start, before) = (p.start(), p.count());
    p.advance();
    if is_bare_yield(p) {
        p.push_absent();
        p.push_flag(false);
    } else {
        let delegates = p.take(Mark::Mul);
        parse_assignment(p, depth - 1);
        p.push_flag(delegates);
    }
    p.build(Kind::YieldExpr, start, before)
}

/// A choice by a test (13.14).
#[cycle(parse)]
fn parse_conditional(p: &mut Parser<'_>, depth: u32) {
    if depth == 0 {
        return p.too_deep();
    }
    let (start, before) = (p.start(), p.count());
    parse_binary(p, depth - 1, LOOSEST);
    if !p.is_mark(Mark::Question) || p.is_last(Kind::ArrowExpr) {
        return;
    }
    p.advance();
    let context = p.open();
    parse_assignment(p, depth - 1);
    p.context = context;
    p.expect(Mark::Colon);
    parse_assignment(p, depth - 1);
    p.build(Kind::CondExpr, start, before)
}

fn operator_here(p: &Parser<'_>) -> Option<Operator> {
    match p.token() {
        Token::Mark(mark) => binary_mark(mark),
        Token::Name(_) => match p.keyword() {
            Some(Keyword::In) if !p.context.has_in => None,
            Some(keyword) => binary_keyword(keyword),
            None => None,
        },
        _ => None,
    }
}

fn is_joined_by(node: &Node, word: Word) -> bool {
    match node {
        Node::Tree(Kind::BinExpr, fields) => match fields.get(1) {
            Some(Node::Word(other)) => *other == word,
            _ => false,
        },
        _ => false,
    }
}

/// Whether an operator may stand behind a left operand as it is: `??` joins no `||` and `&&` without parentheses
/// (13.13), and no operator stands before the base of a power (13.6).
fn may_join(left: &Node, word: Word) -> bool {
    match word {
        Word::NullishCoalescing => {
            !is_joined_by(left, Word::LogicalOr) && !is_joined_by(left, Word::LogicalAnd)
        }
        Word::LogicalOr | Word::LogicalAnd => !is_joined_by(left, Word::NullishCoalescing),
        Word::Exp => !matches!(left, Node::Tree(Kind::UnaryExpr | Kind::AwaitExpr, _)),
        _ => true,
    }
}

fn may_join_last(p: &Parser<'_>, word: Word) -> bool {
    match p.nodes.last() {
        Some(left) => may_join(left, word),
        None => false,
    }
}

/// A private name, which stands before `in` and nowhere else (13.10).
fn push_private_operand(p: &mut Parser<'_>, raw: &[u8], least: u8) {
    if least > COMPARISON {
        return p.unexpected(Expected::Expression);
    }
    p.push_private_name(raw);
    if !p.is_keyword(Keyword::In) || !p.context.has_in {
        p.unexpected(Expected::Word("in"));
    }
}

/// Operands of operators that bind at least so tightly (13.6 to 13.13).
#[cycle(parse)]
fn parse_binary(p: &mut Parser<'_>, depth: u32, least: u8) {
    if depth == 0 {
        return p.too_deep();
    }
    let (start, before) = (p.start(), p.count());
    if let Token::PrivateName(raw) = p.token() {
        push_private_operand(p, raw, least);
    } else {
        parse_unary(p, depth - 1);
    }
    if p.is_last(Kind::ArrowExpr) {
        return;
    }
    for _ in 0..p.len() {
        let Some(operator) = operator_here(p) else {
            break;
        };
        if operator.level < least {
            break;
        }
        if !may_join_last(p, operator.word) {
            return p.unexpected(Expected::Mark(Mark::RightParen));
        }
        p.advance();
        parse_binary(p, depth - 1, operator.right);
        p.build_with(Kind::BinExpr, Node::Word(operator.word), start, before);
    }
}

fn prefix_here(p: &Parser<'_>) -> Option<Prefix> {
    match p.token() {
        Token::Mark(mark) => prefix_mark(mark),
        Token::Name(_) => match p.keyword() {
            Some(Keyword::Await) if !p.context.has_await => None,
            Some(keyword) => prefix_keyword(keyword),
            None => None,
        },
        _ => None,
    }
}

fn update_here(p: &Parser<'_>) -> Option<Word> {
    if p.line_ended() {
        return None;
    }
    match p.token() {
        Token::Mark(Mark::PlusPlus) => Some(Word::PlusPlus),
        Token::Mark(Mark::MinusMinus) => Some(Word::MinusMinus),
        _ => None,
    }
}

/// An operand, with the operators before it, or with one behind it (13.4 and 13.5).
#[cycle(parse)]
fn parse_unary(p: &mut Parser<'_>, depth: u32) {
    if depth == 0 {
        return p.too_deep();
    }
    let (start, before) = (p.start(), p.count());
    match prefix_here(p) {
        Some(Prefix::Operator(word)) => {
            p.advance();
            parse_unary(p, depth - 1);
            p.build_with(Kind::UnaryExpr, Node::Word(word), start, before)
        }
        Some(Prefix::Update(word)) => {
            p.advance();
            parse_unary(p, depth - 1);
            p.expect_simple_target(depth);
            p.insert(before, Node::Flag(true));
            p.build_with(Kind::UpdateExpr, Node::Word(word), start, before)
        }
        Some(Prefix::Await) => {
            p.advance();
            parse_unary(p, depth - 1);
            p.build(Kind::AwaitExpr, start, before)
        }
        None => {
            parse_postfix(p, depth - 1);
            let Some(word) = update_here(p) else {
                return;
            };
            p.expect_simple_target(depth);
            p.advance();
            p.insert(before, Node::Flag(false));
            p.build_with(Kind::UpdateExpr, Node::Word(word), start, before)
        }
    }
}
