//! What expressions begin with (ECMA-262, the lookahead restrictions of 14.5, 15.3 and 16.2.3).
ghost use Rattle.std.specs.Prelude.{◌≡◌, ◌<◌, length, IfSome};
ghost use Rattle.swc_tree_grammar.specs.Starts.{is_computed_in, is_let_bracket as is_let_bracket_in, is_let_in, start as start_in};
ghost use Rattle.swc_tree_node.specs.declared.node.Node.{out-Node};
ghost use Rattle.swc_tree_grammar.specs.Grammar.{may_begin_body as may_begin_body_so, may_begin_export as may_begin_export_so, may_begin_statement as may_begin_statement_so};
ghost use Rattle.text_derives.specs.Begin.{begins, is_bracket as is_bracket_start, own_start as own_start_of, start_field as start_field_of, has_let_bracket as has_let_bracket_in};

use crate::form::is_set;
use swc_tree_node::fields::{
    assign_expr, bin_expr, call_expr, cond_expr, fn_expr, function, member_expr, opt_chain_expr,
    seq_expr, update_expr,
};
use swc_tree_node::{Kind, Node};

/// The first token of an expression, as far as a place asks for it.
#[derive(Clone, Copy)]
pub enum Start {
    Brace,
    FunctionWord,
    /// `async` with `function` behind it.
    AsyncFunction,
    ClassWord,
    /// `let` with `[` behind it.
    LetBracket,
    Other,
}

// Whether a node is the name `let`.
fn is_let(node: &Node) -> bool
    ensures { result ≡ is_let_in (out-Node node.now) }
{
    match node {
        Node::Identifier(_, ident) => ident.get().sym.as_str() == "let",
        _ => false,
    }
}

// Whether a node is a computed key.
fn is_computed(node: &Node) -> bool
    ensures { result ≡ is_computed_in (out-Node node.now) }
{
    match node {
        Node::Tree(Kind::ComputedPropName, fields) => fields.len() == 2,
        _ => false,
    }
}

// Whether a node is the name `let` with a computed key.
fn is_let_bracket(node: &Node) -> bool
    ensures { result ≡ is_let_bracket_in node.now }
{
    match node {
        Node::Tree(Kind::MemberExpr, fields) => {
            let fields = fields.as_slice();
            fields.len() == 3
                && is_let(&fields[member_expr::OBJ])
                && is_computed(&fields[member_expr::PROP])
        }
        _ => false,
    }
}

// Whether a member of these fields is the name `let` with a computed key.
fn has_let_bracket(fields: &[Node]) -> bool
    requires { length fields.now ≡ 3 }
    ensures { result ≡ has_let_bracket_in fields.now }
{
    is_let(&fields[member_expr::OBJ]) && is_computed(&fields[member_expr::PROP])
}

// The field whose start is that of the node, if there is one.
fn start_field(kind: Kind, fields: &[Node]) -> Option<usize>
    ensures field { result ≡ start_field_of kind fields.now }
    ensures within { IfSome result (λ i. i < length fields.now) }
{
    match kind {
        Kind::FnExpr if fields.len() == 2 => Some(fn_expr::FUNCTION),
        Kind::SeqExpr if fields.len() == 2 => Some(seq_expr::EXPRS),
        Kind::AssignExpr if fields.len() == 4 => Some(assign_expr::LEFT),
        Kind::CondExpr if fields.len() == 4 => Some(cond_expr::TEST),
        Kind::BinExpr if fields.len() == 4 => Some(bin_expr::LEFT),
        Kind::UpdateExpr if fields.len() == 4 => {
            if is_set(&fields[update_expr::PREFIX]) {
                None
            } else {
                Some(update_expr::ARG)
            }
        }
        Kind::MemberExpr if fields.len() == 3 => {
            if has_let_bracket(fields) {
                None
            } else {
                Some(member_expr::OBJ)
            }
        }
        Kind::CallExpr | Kind::TaggedTpl | Kind::OptCall if fields.len() == 3 => {
            Some(call_expr::CALLEE)
        }
        Kind::OptChainExpr if fields.len() == 3 => {
            if is_set(&fields[opt_chain_expr::OPTIONAL])
                && is_let_bracket(&fields[opt_chain_expr::BASE])
            {
                None
            } else {
                Some(opt_chain_expr::BASE)
            }
        }
        _ => None,
    }
}

// The start of a node of which no field says it.
fn own_start(kind: Kind, fields: &[Node]) -> Start
    ensures { begins result ≡ own_start_of kind fields.now }
{
    match kind {
        Kind::ObjectLit | Kind::ObjectPat => Start::Brace,
        Kind::ClassExpr => Start::ClassWord,
        Kind::Function if fields.len() == 5 => {
            if is_set(&fields[function::IS_ASYNC]) {
                Start::AsyncFunction
            } else {
                Start::FunctionWord
            }
        }
        Kind::MemberExpr if fields.len() == 3 => Start::LetBracket,
        _ => Start::Other,
    }
}

/// What an expression begins with.
///
/// The time is in step with how long the way to the first token is.
fn start_of(node: &Node) -> Start
    ensures { begins result ≡ start_in node.now }
{
    match node {
        Node::List(items) => match items.as_slice() {
            [first, ..] => start_of(first),
            [] => Start::Other,
        },
        Node::Tree(kind, fields) => {
            let fields = fields.as_slice();
            match start_field(*kind, fields) {
                Some(index) => start_of(&fields[index]),
                None => own_start(*kind, fields),
            }
        }
        _ => Start::Other,
    }
}

// Whether a statement may begin so.
fn begins_statement(start: Start) -> bool
    ensures { result ≡ may_begin_statement_so (begins start) }
{
    matches!(start, Start::Other)
}

// Whether a default export may begin so.
fn begins_export(start: Start) -> bool
    ensures { result ≡ may_begin_export_so (begins start) }
{
    match start {
        Start::FunctionWord | Start::AsyncFunction | Start::ClassWord => false,
        Start::Brace | Start::LetBracket | Start::Other => true,
    }
}

// Whether an arrow's body that is no block may begin so.
fn begins_body(start: Start) -> bool
    ensures { result ≡ may_begin_body_so (begins start) }
{
    match start {
        Start::Brace => false,
        Start::FunctionWord
        | Start::AsyncFunction
        | Start::ClassWord
        | Start::LetBracket
        | Start::Other => true,
    }
}

/// Whether an expression begins as a statement may.
pub fn may_be_statement(expr: &Node) -> bool
    ensures { result ≡ may_begin_statement_so (start_in expr.now) }
{
    begins_statement(start_of(expr))
}

/// Whether an expression begins as a default export may.
pub fn may_be_export(expr: &Node) -> bool
    ensures { result ≡ may_begin_export_so (start_in expr.now) }
{
    begins_export(start_of(expr))
}

/// Whether an expression begins as an arrow's body that is no block may.
pub fn may_be_body(expr: &Node) -> bool
    ensures { result ≡ may_begin_body_so (start_in expr.now) }
{
    begins_body(start_of(expr))
}

fn is_bracket(start: Start) -> bool
    ensures { result ≡ is_bracket_start (begins start) }
{
    matches!(start, Start::LetBracket)
}

/// Whether an expression begins with the name `let` and a bracket behind it.
pub fn begins_with_let_bracket(expr: &Node) -> bool
    ensures { result ≡ is_bracket_start (start_in expr.now) }
{
    is_bracket(start_of(expr))
}
