//! Declarations of variables, and loops by `for` (ECMA-262, 14.3 and 14.7).
use crate::expressions::{parse_assignment, parse_expression};
use crate::functions::parse_binding;
use crate::members::parse_postfix;
use crate::statements::parse_steps;
use crate::steps::{FOR, FOR_IN, FOR_OF};
use swc_tree_node::{Kind, Node, Word};
use text_lexer::{Mark, Token};
use text_reader::{Expected, Keyword, Language, Next, Parser};

/// Whether what stands behind `using` on its line is what it declares.
fn is_used(next: Next<'_>, in_head: bool) -> bool {
    if next.ended {
        return false;
    }
    match next.token {
        Token::EscapedName(_) => true,
        Token::Name(_) => match next.keyword {
            Some(Keyword::In | Keyword::InstanceOf) => false,
            Some(Keyword::Of) => !in_head,
            _ => true,
        },
        _ => false,
    }
}

/// Whether what stands behind `let` is what it declares.
pub(crate) fn is_let(next: Next<'_>) -> bool {
    match next.token {
        Token::EscapedName(_) => true,
        Token::Name(_) => { !matches!(next.keyword, Some(Keyword::In | Keyword::InstanceOf)) }
        Token::Mark(mark) => matches!(mark, Mark::LeftBracket | Mark::LeftBrace),
        _ => false,
    }
}

/// Whether a declaration of variables begins here, in the head of a `for` or elsewhere.
pub(crate) fn declares(p: &Parser<'_>, in_head: bool) -> bool {
    match p.keyword() {
        Some(Keyword::Var | Keyword::Const) => true,
        Some(Keyword::Let) => is_let(p.peek()),
        Some(Keyword::Using) => is_used(p.peek(), in_head),
        Some(Keyword::Await) if p.context.has_await => {
            let next = p.peek();
            !next.ended
                && next.keyword == Some(Keyword::Using)
                && is_used(p.peek_behind(next), in_head)
        }
        _ => false,
    }
}

/// Makes the word of a declaration or what is said of `using`, goes behind it, and answers what the declaration is.
fn push_declaring(p: &mut Parser<'_>) -> Kind {
    let (kind, second) = match p.keyword() {
        Some(Keyword::Let) => (Kind::VarDecl, Node::Word(Word::Let)),
        Some(Keyword::Const) => (Kind::VarDecl, Node::Word(Word::Const)),
        Some(Keyword::Using) => (Kind::UsingDecl, Node::Flag(false)),
        Some(Keyword::Await) => (Kind::UsingDecl, Node::Flag(true)),
        _ => (Kind::VarDecl, Node::Word(Word::Var)),
    };
    if p.is_keyword(Keyword::Await) {
        p.advance();
    }
    p.advance();
    p.push(second);
    kind
}

/// Whether a declared variable has to have a value here: a pattern, and what can't be assigned to (14.3).
fn wants_value(p: &Parser<'_>, is_fixed: bool, in_head: bool) -> bool {
    let is_each = in_head && (p.is_keyword(Keyword::In) || p.is_keyword(Keyword::Of));
    !is_each && (is_fixed || !p.is_last(Kind::BindingIdent))
}

/// Variables that one word declares; the head of a `for` has no end of its own.
#[cycle(parse)]
pub(crate) fn parse_variables(p: &mut Parser<'_>, depth: u32, in_head: bool) {
    if depth == 0 {
        return p.too_deep();
    }
    let (start, before) = (p.start(), p.count());
    let is_fixed = !p.is_keyword(Keyword::Var) && !p.is_keyword(Keyword::Let);
    let kind = push_declaring(p);
    let variables = p.count();
    for _ in 0..p.len() {
        let (name, variable) = (p.start(), p.count());
        if kind == Kind::UsingDecl && !p.is_name() {
            return p.unexpected(Expected::Name);
        }
        parse_binding(p, depth - 1, false);
        if p.take(Mark::Assign) {
            parse_assignment(p, depth - 1);
        } else if p.is_mark(Mark::Colon) {
            return p.not_read(Language::Types);
        } else if wants_value(p, is_fixed, in_head) {
            return p.unexpected(Expected::Initializer);
        } else {
            p.push_absent();
        }
        p.build(Kind::VarDeclarator, name, variable);
        if !p.take(Mark::Comma) {
            break;
        }
    }
    p.list(variables);
    if !in_head {
        p.end_statement();
    }
    p.build(kind, start, before)
}

/// A `for` statement (14.7.4 and 14.7.5).
#[cycle(parse)]
pub(crate) fn parse_for(p: &mut Parser<'_>, depth: u32) {
    if depth == 0 {
        return p.too_deep();
    }
    let begun = (p.start(), p.count());
    p.advance();
    let is_await = p.context.has_await && p.take_keyword(Keyword::Await);
    p.expect(Mark::LeftParen);
    let (begins_let, head) = (p.is_keyword(Keyword::Let), p.start());
    let context = p.context;
    p.context.has_in = false;
    parse_head(p, depth - 1, is_await);
    p.context = context;
    if p.is_keyword(Keyword::Of) && p.is_each_head(begins_let) {
        p.end_head_of(head, is_await);
        p.last_to_head(depth);
        p.insert(begun.1, Node::Flag(is_await));
        return parse_steps(p, depth - 1, Kind::ForOfStmt, FOR_OF, begun);
    }
    if is_await {
        return p.unexpected(Expected::Word("of"));
    }
    if p.is_keyword(Keyword::In) && p.is_each_head(false) && !p.is_last(Kind::UsingDecl) {
        p.last_to_head(depth);
        return parse_steps(p, depth - 1, Kind::ForInStmt, FOR_IN, begun);
    }
    p.end_head(head);
    parse_steps(p, depth - 1, Kind::ForStmt, FOR, begun)
}

/// What a `for` statement begins with in its parentheses.
#[cycle(parse)]
fn parse_head(p: &mut Parser<'_>, depth: u32, is_await: bool) {
    if depth == 0 {
        return p.too_deep();
    }
    if p.is_mark(Mark::Semicolon) {
        return p.push_absent();
    }
    if declares(p, true) {
        return parse_variables(p, depth - 1, true);
    }
    if is_await {
        p.arrow_at = usize::MAX;
        return parse_postfix(p, depth - 1);
    }
    parse_expression(p, depth - 1)
}
