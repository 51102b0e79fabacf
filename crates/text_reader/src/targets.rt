//! What a parser makes anew of what it has read.
use crate::building::{place, span_of};
use crate::fault::{Expected, TextFault};
use crate::keywords::Keyword;
use crate::parser::{LastComma, Parser, is_mark};
use crate::waiting::{Part, View};
use swc_tree_node::{Kind, Node, Word};
use text_lexer::Mark;
use text_patterns::{PatternError, Reading, parameters_of, pattern_of};

/// What a statement is as a directive (ECMA-262, 11.2.1).
#[derive(Clone, Copy, PartialEq, Eq)]
enum Directive {
    None,
    Other,
    UseStrict,
    /// It has the value of `"use strict"`, and is written otherwise.
    Escaped,
}

const USE_STRICT: &str = "use strict";

fn directive_of(statement: Option<&Node>) -> Directive {
    let Some(Node::Tree(Kind::ExprStmt, fields)) = statement else {
        return Directive::None;
    };
    match fields.get(1) {
        Some(Node::Tree(Kind::Str, fields)) => directive_in(fields.as_slice()),
        _ => Directive::None,
    }
}

fn directive_in(string: &[Node]) -> Directive {
    match string {
        [_, Node::Text(value), Node::Text(raw)] => {
            if value.as_str() != USE_STRICT {
                Directive::Other
            } else if raw.as_str().len() == USE_STRICT.len() + 2 {
                Directive::UseStrict
            } else {
                Directive::Escaped
            }
        }
        _ => Directive::None,
    }
}

// Whether a body has the directive, among those that lead it.
fn makes_strict(body: Option<View<'_>>) -> bool {
    let Some(body) = body else {
        return false;
    };
    if !matches!(body.node, Node::Tree(Kind::BlockStmt, _)) {
        return false;
    }
    let Some(statements) = body.get(1) else {
        return false;
    };
    for statement in statements.waiting().iter().rev() {
        match directive_of(Some(&statement.node)) {
            Directive::None => return false,
            Directive::UseStrict => return true,
            Directive::Other | Directive::Escaped => (),
        }
    }
    let Node::List(statements) = statements.node else {
        return false;
    };
    for statement in statements.as_slice() {
        match directive_of(Some(statement)) {
            Directive::None => return false,
            Directive::UseStrict => return true,
            Directive::Other | Directive::Escaped => (),
        }
    }
    false
}

fn is_plain(parameter: &Node) -> bool {
    match parameter {
        Node::Identifier(_, _) => true,
        Node::Tree(Kind::Param, fields) => matches!(fields.get(1), Some(Node::Identifier(_, _))),
        _ => false,
    }
}

fn are_plain(parameters: Option<View<'_>>) -> bool {
    let Some(parameters) = parameters else {
        return false;
    };
    match parameters.node {
        Node::List(items) => {
            items.as_slice().iter().all(|item| is_plain(item))
                && parameters.waiting().iter().all(|item| is_plain(&item.node))
        }
        _ => false,
    }
}

fn is_spread(argument: View<'_>) -> bool {
    match argument.node {
        Node::Tree(_, _) => match argument.get(0) {
            Some(dots) => !matches!(dots.node, Node::Absent),
            None => true,
        },
        _ => true,
    }
}

fn is_each_variable(variable: View<'_>, may_have_value: bool) -> bool {
    match (variable.get(1), variable.get(2)) {
        (Some(name), Some(value)) => match (name.node, value.node) {
            (_, Node::Absent) => true,
            (Node::Identifier(_, _), _) => may_have_value,
            _ => false,
        },
        _ => false,
    }
}

// What is assigned to, and is no pattern: a name or a member, in parentheses or not.
fn is_simple_target(node: View<'_>, depth: u32) -> bool {
    let mut node = node;
    for _ in 0..depth {
        match node.node {
            Node::Identifier(_, _) => return true,
            Node::Tree(Kind::MemberExpr | Kind::SuperPropExpr, _) => return true,
            Node::Tree(Kind::ParenExpr, _) => match node.get(1) {
                Some(inner) => node = inner,
                None => return false,
            },
            _ => return false,
        }
    }
    false
}

fn is_var(word: Option<View<'_>>) -> bool {
    match word {
        Some(word) => matches!(word.node, Node::Word(Word::Var)),
        None => false,
    }
}

impl<'a> Parser<'a> {
    /// Notes that a name here has a default, which only a pattern may have.
    pub fn begin_cover(&mut self) {
        self.covers = self.covers.saturating_add(1);
        self.cover_at = self.start();
        self.last_as_pattern(true, u32::MAX);
    }

    /// Sees to it that all names with defaults are in patterns, but for those that were open before.
    pub fn end_covers(&mut self, before: usize) {
        if self.covers > before {
            self.unexpected_at(self.cover_at, Expected::Mark(Mark::Comma));
        }
    }

    fn reading(&self, binds: bool) -> Reading<'_> {
        Reading {
            alloc: self.alloc,
            binds,
            commas: self.comma_ends.as_slice(),
        }
    }

    fn refused(&self, error: PatternError) -> TextFault {
        let (at, expected) = match error {
            PatternError::NoMemory => return TextFault::NoMemory,
            PatternError::NotPattern => (self.start(), Expected::Target),
            PatternError::CommaBehindRest(comma) => match self.last_commas.get(comma) {
                Some(comma) => (comma.at, Expected::Mark(comma.close)),
                None => (self.start(), Expected::Target),
            },
        };
        TextFault::Unexpected { at, expected }
    }

    /// Keeps in mind that a comma stands here which closes a list, if one does, behind an element with dots.
    pub fn mind_last_comma(&mut self, close: Mark) {
        if self.is_mark(Mark::Comma) && is_mark(self.peek().token, close) {
            let (at, end) = (self.start(), place(self.end()));
            let comma = LastComma { at, close };
            if self.last_commas.push(comma).is_err() || self.comma_ends.push(end).is_err() {
                self.refuse(TextFault::NoMemory);
            }
        }
    }

    // A pattern is one higher than the expression, where a name stands for a property and what it is bound to.
    fn resolve(&mut self, read: Result<Node, PatternError>, part: Part, covers: usize) {
        self.covers = self.covers.saturating_sub(covers);
        match read {
            Ok(node) => self.push_high(node, part.raised()),
            Err(error) => {
                let fault = self.refused(error);
                self.refuse(fault);
            }
        }
    }

    fn last_as_pattern(&mut self, binds: bool, depth: u32) {
        let Some((node, part)) = self.pop_high() else {
            return self.unexpected(Expected::Target);
        };
        let mut covers = 0;
        let read = pattern_of(node, self.reading(binds), depth, &mut covers);
        self.resolve(read, part, covers);
    }

    /// Reads the last node anew as what an operator assigns to; only `=` takes patterns.
    pub fn last_to_target(&mut self, word: Word, depth: u32) {
        if word != Word::Assign {
            self.expect_simple_target(depth);
        }
        let is_assignment = self.is_last(Kind::AssignExpr);
        if is_assignment {
            return self.unexpected(Expected::Target);
        }
        self.last_as_pattern(false, depth);
    }

    /// Reads the last node anew as a pattern that binds names.
    pub fn last_to_binding(&mut self, depth: u32) {
        self.last_as_pattern(true, depth);
    }

    /// Reads the last node, a list, anew as parameters.
    pub fn last_to_parameters(&mut self, depth: u32) {
        let Some((node, part)) = self.pop_high() else {
            return self.unexpected(Expected::Target);
        };
        let mut covers = 0;
        let read = parameters_of(node, self.reading(true), depth, &mut covers);
        self.resolve(read, part, covers);
    }

    /// Reads the last node anew as what a loop assigns to, unless it declares.
    pub fn last_to_head(&mut self, depth: u32) {
        if !self.is_last(Kind::VarDecl) && !self.is_last(Kind::UsingDecl) {
            self.last_to_target(Word::Assign, depth);
        }
    }

    /// Whether the last node is what a loop over values or keys may begin with. Only a `var` before `in` has a value
    /// (ECMA-262, B.3.5).
    pub fn is_each_head(&self, is_expression_of_let: bool) -> bool {
        let Some(head) = self.last_view() else {
            return !is_expression_of_let;
        };
        if !matches!(head.node, Node::Tree(Kind::VarDecl | Kind::UsingDecl, _)) {
            return !is_expression_of_let;
        }
        let Some(variables) = head.get(2) else {
            return false;
        };
        match variables.get(0) {
            Some(variable) if variables.len() == 1 => {
                let may = self.may_have_value() && is_var(head.get(1));
                is_each_variable(variable, may)
            }
            _ => false,
        }
    }

    fn may_have_value(&self) -> bool {
        !self.context.is_strict && self.is_keyword(Keyword::In)
    }

    /// Sees to it that a loop over values does not begin with the name `async`, which is written with an escape: the tree would
    /// say `async of`, which no such loop begins with (ECMA-262, 14.7.5).
    pub fn end_head_of(&mut self, head: usize, is_await: bool) {
        let is_async = match self.nodes.last() {
            Some(Node::Identifier(_, ident)) => ident.get().sym.as_str() == "async",
            _ => false,
        };
        if is_async && !is_await {
            self.unexpected_at(head, Expected::Target);
        }
    }

    /// Sees to it that parameters are plain names where the body behind them, the last node, has the directive (ECMA-262, 15.1.1);
    /// where the function begins is told.
    pub fn expect_plain_parameters(&mut self, at: usize) {
        if makes_strict(self.last_view()) && !are_plain(self.view_before_last()) {
            self.unexpected_at(at, Expected::Parameters);
        }
    }

    /// Sees to it that what a loop with semicolons begins with may stand there.
    pub fn end_head(&mut self, head: usize) {
        if self.is_last(Kind::UsingDecl) {
            self.unexpected_at(head, Expected::Expression);
        }
    }

    /// Sees to it that the last node is a name or a member.
    pub fn expect_simple_target(&mut self, depth: u32) {
        let is_simple = match self.last_view() {
            Some(node) => is_simple_target(node, depth),
            None => false,
        };
        if !is_simple {
            self.unexpected(Expected::Target);
        }
    }

    /// Makes parentheses of the expressions behind so many, which begin and end at places.
    pub fn build_paren(&mut self, start: usize, inner: usize, end: usize, before: usize) {
        if self.count() != before.saturating_add(1) {
            self.list(before);
            self.insert(before, Node::Span(span_of(inner, end)));
            self.close(Kind::SeqExpr, before);
        }
        self.build(Kind::ParenExpr, start, before);
    }

    /// Lets go of the node before the last.
    pub fn drop_before_last(&mut self) {
        let last = self.pop_high();
        let _ = self.pop_high();
        match last {
            Some((last, part)) => self.push_high(last, part),
            None => self.unexpected(Expected::Token),
        }
    }

    /// Sees to it that `import` has one argument or two, none of them with dots (ECMA-262, 13.3.10).
    pub fn expect_import_arguments(&mut self) {
        let fits = match self.last_view() {
            Some(arguments) => match (arguments.len(), arguments.get(0), arguments.get(1)) {
                (1, Some(module), _) => !is_spread(module),
                (2, Some(module), Some(options)) => !is_spread(module) && !is_spread(options),
                _ => false,
            },
            None => false,
        };
        if !fits {
            self.unexpected(Expected::Parameters);
        }
    }

    /// Whether the last node, which begins at a place, is a directive; the code behind one may be strict. Where the first
    /// stands that has the value of `"use strict"` and is written otherwise is kept.
    pub fn mind_directive(&mut self, start: usize, escaped: &mut Option<usize>) -> bool {
        match directive_of(self.nodes.last()) {
            Directive::None => return false,
            Directive::Other => (),
            Directive::UseStrict => self.context.is_strict = true,
            Directive::Escaped => {
                if escaped.is_none() {
                    *escaped = Some(start);
                }
            }
        }
        true
    }

    /// Sees to it that code with a directive that is written otherwise than `"use strict"` is strict all the same.
    pub fn end_directives(&mut self, escaped: Option<usize>) {
        match escaped {
            Some(at) if !self.context.is_strict => {
                self.refuse(TextFault::EscapedDirective { at });
            }
            _ => (),
        }
    }
}
