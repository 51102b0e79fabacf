//! Statements (ECMA-262, 14).
use crate::expressions::{parse_assignment, parse_expression};
use crate::functions::{parse_binding, parse_class, parse_function};
use crate::heads::{declares, is_let, parse_for, parse_variables};
use crate::steps::{Place, Run, Step, kind_of_word, steps_of};
use swc_tree_node::Kind;
use text_lexer::{Mark, Token};
use text_reader::{Expected, Keyword, Parser, is_mark};

/// What a statement begins with.
#[derive(Clone, Copy, PartialEq, Eq)]
enum Beginning {
    /// A word or a punctuator of its own.
    Steps(Kind),
    Variables,
    Function,
    AsyncFunction,
    Class,
    For,
    Expression,
}

fn begins_async_function(p: &Parser<'_>) -> bool {
    let next = p.peek();
    !next.ended && next.keyword == Some(Keyword::Function)
}

fn beginning_of_word(p: &Parser<'_>, keyword: Keyword) -> Beginning {
    match keyword {
        Keyword::Var | Keyword::Const => Beginning::Variables,
        Keyword::Let | Keyword::Using | Keyword::Await => {
            if declares(p, false) {
                Beginning::Variables
            } else {
                Beginning::Expression
            }
        }
        Keyword::Function => Beginning::Function,
        Keyword::Async => {
            if begins_async_function(p) {
                Beginning::AsyncFunction
            } else {
                Beginning::Expression
            }
        }
        Keyword::Class => Beginning::Class,
        Keyword::For => Beginning::For,
        _ => match kind_of_word(keyword) {
            Some(kind) => Beginning::Steps(kind),
            None => Beginning::Expression,
        },
    }
}

fn beginning_here(p: &Parser<'_>) -> Beginning {
    match p.token() {
        Token::Mark(Mark::LeftBrace) => Beginning::Steps(Kind::BlockStmt),
        Token::Mark(Mark::Semicolon) => Beginning::Steps(Kind::EmptyStmt),
        Token::Name(_) => match p.keyword() {
            Some(keyword) => beginning_of_word(p, keyword),
            None => Beginning::Expression,
        },
        _ => Beginning::Expression,
    }
}

/// Whether variables may be declared in a place with the word that stands here.
fn may_declare(p: &Parser<'_>, place: Place) -> bool {
    match place {
        Place::Item => true,
        Place::Bare => !p.is_keyword(Keyword::Using) && !p.is_keyword(Keyword::Await),
        Place::Branch | Place::Body => p.is_keyword(Keyword::Var),
    }
}

/// Whether a statement that begins so may stand in a place (14.1). `let` before a line end and no bracket is a name
/// where no declaration may stand.
fn placed(p: &mut Parser<'_>, place: Place) -> Beginning {
    let beginning = beginning_here(p);
    let is_listed = place == Place::Item || place == Place::Bare;
    let stands = match beginning {
        Beginning::Variables => may_declare(p, place),
        Beginning::Function => is_listed || place == Place::Branch && !p.context.is_strict,
        Beginning::AsyncFunction | Beginning::Class => is_listed,
        _ => true,
    };
    if stands {
        return beginning;
    }
    if !p.is_keyword(Keyword::Let) || is_mark(p.peek().token, Mark::LeftBracket) {
        p.unexpected(Expected::Statement);
    }
    Beginning::Expression
}

#[cycle(parse)]
pub(crate) fn parse_statement(p: &mut Parser<'_>, depth: u32, place: Place) {
    if depth == 0 {
        return p.too_deep();
    }
    let (start, before, covers) = (p.start(), p.count(), p.covers);
    match placed(p, place) {
        Beginning::Steps(kind) => {
            parse_steps(p, depth - 1, kind, steps_of(kind), (start, before));
        }
        Beginning::Variables => parse_variables(p, depth - 1, false),
        Beginning::Function => {
            let hangs = place == Place::Branch;
            parse_function(p, depth - 1, start, false, Kind::FnDecl, hangs);
        }
        Beginning::AsyncFunction => {
            p.advance();
            parse_function(p, depth - 1, start, true, Kind::FnDecl, false);
        }
        Beginning::Class => parse_class(p, depth - 1, Kind::ClassDecl),
        Beginning::For => parse_for(p, depth - 1),
        Beginning::Expression => parse_expression_statement(p, depth - 1),
    }
    p.end_covers(covers);
}

/// An expression as a statement, or a statement with a label. The name `let` that is written with an escape does not stand
/// before what it would declare, since no tree tells the escape.
#[cycle(parse)]
fn parse_expression_statement(p: &mut Parser<'_>, depth: u32) {
    if depth == 0 {
        return p.too_deep();
    }
    let (start, before) = (p.start(), p.count());
    if p.is_escaped("let") && is_let(p.peek()) {
        return p.unexpected(Expected::Statement);
    }
    parse_expression(p, depth - 1);
    if p.is_mark(Mark::Colon) && p.is_last(Kind::Ident) {
        p.advance();
        parse_statement(p, depth - 1, Place::Branch);
        return p.build(Kind::LabeledStmt, start, before);
    }
    p.end_statement();
    p.build(Kind::ExprStmt, start, before)
}

/// A node of a kind, one step after another; where it begins is told, and behind how many nodes its parts are.
#[cycle(parse)]
pub(crate) fn parse_steps(
    p: &mut Parser<'_>,
    depth: u32,
    kind: Kind,
    steps: &[Step],
    begun: (usize, usize),
) {
    if depth == 0 {
        return p.too_deep();
    }
    for step in steps {
        parse_step(p, depth - 1, *step);
    }
    p.build(kind, begun.0, begun.1)
}

/// What has to be read for a step, once what stands before it is taken.
#[derive(Clone, Copy)]
enum Part {
    Nothing,
    Expression,
    Assignment,
    /// A pattern in a parenthesis that is open.
    Binding,
    Statement(Place),
    Node(Kind),
    Run(Run),
}

/// What a step wants where it may be left out: nothing where it is, which makes a node that says so.
fn unless(p: &mut Parser<'_>, is_left_out: bool, part: Part) -> Part {
    if is_left_out {
        p.push_absent();
        return Part::Nothing;
    }
    part
}

/// Goes over what a step says of words and punctuators.
fn take_step(p: &mut Parser<'_>, step: Step) -> Part {
    match step {
        Step::Word(keyword) => p.expect_keyword(keyword),
        Step::Mark(mark) => p.expect(mark),
        Step::End => p.end_statement(),
        Step::EndOfDo => {
            p.take(Mark::Semicolon);
        }
        Step::Here => {
            if p.line_ended() {
                p.unexpected(Expected::Expression);
            }
        }
        Step::OptionalLabel => {
            if p.is_statement_end() {
                p.push_absent();
            } else {
                p.push_name(Kind::Ident);
            }
        }
        Step::Expression => return Part::Expression,
        Step::Assignment => return Part::Assignment,
        Step::Statement(place) => return Part::Statement(place),
        Step::Block => return Part::Node(Kind::BlockStmt),
        Step::Run(run) => return Part::Run(run),
        _ => return take_optional(p, step),
    }
    Part::Nothing
}

/// The same of what may be left out.
fn take_optional(p: &mut Parser<'_>, step: Step) -> Part {
    match step {
        Step::OptionalExpression => unless(p, p.is_statement_end(), Part::Expression),
        Step::ExpressionUnless(mark) => unless(p, p.is_mark(mark), Part::Expression),
        Step::Handler => unless(
            p,
            !p.is_keyword(Keyword::Catch),
            Part::Node(Kind::CatchClause),
        ),
        Step::Else => {
            let leads = p.take_keyword(Keyword::Else);
            unless(p, !leads, Part::Statement(Place::Branch))
        }
        Step::Finalizer => {
            let leads = p.take_keyword(Keyword::Finally);
            if !leads && p.is_last_absent() {
                p.unexpected(Expected::Word("catch"));
            }
            unless(p, !leads, Part::Node(Kind::BlockStmt))
        }
        Step::Parameter => {
            let opens = p.take(Mark::LeftParen);
            unless(p, !opens, Part::Binding)
        }
        _ => {
            let leads = p.take_keyword(Keyword::Case);
            if !leads {
                p.expect_keyword(Keyword::Default);
            }
            unless(p, !leads, Part::Expression)
        }
    }
}

/// One step.
#[cycle(parse)]
fn parse_step(p: &mut Parser<'_>, depth: u32, step: Step) {
    if depth == 0 {
        return p.too_deep();
    }
    match take_step(p, step) {
        Part::Nothing => (),
        Part::Expression => parse_expression(p, depth - 1),
        Part::Assignment => parse_assignment(p, depth - 1),
        Part::Binding => {
            parse_binding(p, depth - 1, false);
            p.expect(Mark::RightParen)
        }
        Part::Statement(place) => parse_statement(p, depth - 1, place),
        Part::Node(kind) => parse_statement_of(p, depth - 1, kind),
        Part::Run(run) => parse_run(p, depth - 1, run),
    }
}

/// A node of a kind that is read step by step.
#[cycle(parse)]
fn parse_statement_of(p: &mut Parser<'_>, depth: u32, kind: Kind) {
    if depth == 0 {
        return p.too_deep();
    }
    let begun = (p.start(), p.count());
    parse_steps(p, depth - 1, kind, steps_of(kind), begun)
}

fn ends_run(p: &Parser<'_>, run: Run) -> bool {
    p.is_end()
        || p.is_mark(Mark::RightBrace)
        || run == Run::Case && (p.is_keyword(Keyword::Case) || p.is_keyword(Keyword::Default))
}

fn place_in(run: Run) -> Place {
    match run {
        Run::Script | Run::Case => Place::Bare,
        Run::Statements | Run::Body | Run::Cases => Place::Item,
    }
}

/// Sees to it that a `switch` has one default at most (14.12).
fn mind_default(p: &mut Parser<'_>, has_one: &mut bool) {
    if !p.is_keyword(Keyword::Default) {
        return;
    }
    if *has_one {
        return p.unexpected(Expected::Word("case"));
    }
    *has_one = true;
}

/// Nodes up to what ends them.
#[cycle(parse)]
pub(crate) fn parse_run(p: &mut Parser<'_>, depth: u32, run: Run) {
    if depth == 0 {
        return p.too_deep();
    }
    let before = p.count();
    let mut leads = run == Run::Body || run == Run::Script;
    let (mut escaped, mut has_default) = (None, false);
    let place = place_in(run);
    for _ in 0..p.len() {
        if ends_run(p, run) {
            break;
        }
        if run == Run::Cases {
            mind_default(p, &mut has_default);
            parse_statement_of(p, depth - 1, Kind::SwitchCase);
        } else {
            let start = p.start();
            parse_statement(p, depth - 1, place);
            leads = leads && p.mind_directive(start, &mut escaped);
        }
    }
    p.end_directives(escaped);
    p.list(before)
}
