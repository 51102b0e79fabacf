//! What expressions begin with, and the expression that they begin with (ECMA-262, the lookahead restrictions of
//! 14.5, 15.3 and 16.2.3).
ghost use Rattle.std.specs.Prelude.{◌≡◌, ◌<◌, length, IfSome};
ghost use Rattle.swc_tree_grammar.specs.Starts.{is_computed_in, is_let_bracket as is_let_bracket_in, is_let_in, start as start_in};
ghost use Rattle.swc_tree_grammar.specs.Due.{Places};
ghost use Rattle.swc_tree_node.specs.declared.node.Node.{out-Node};
ghost use Rattle.swc_base_fixer_due.specs.Begin.{begins, own_start as own_start_of, start_field as start_field_of, has_let_bracket as has_let_bracket_in, leading_field as leading_field_of, leads as leads_of};

use crate::heads::holds;
use swc_base_fixer_demands::{Family, is_of};
use swc_tree_node::fields::{
    assign_expr, bin_expr, call_expr, cond_expr, fn_expr, function, member_expr, opt_chain_expr,
    seq_expr, update_expr,
};
use swc_tree_node::{Kind, Node};

/// The first token of an expression, as far as a place asks for it.
#[derive(Clone, Copy)]
pub enum Start {
    Brace,
    FunctionWord,
    /// `async` with `function` behind it.
    AsyncFunction,
    ClassWord,
    /// `let` with `[` behind it.
    LetBracket,
    Other,
}

// Whether a node is the name `let`.
fn is_let(node: &Node) -> bool
    ensures { result ≡ is_let_in (out-Node node.now) }
{
    match node {
        Node::Identifier(_, ident) => ident.get().sym.as_str() == "let",
        _ => false,
    }
}

// Whether a node is a computed key.
fn is_computed(node: &Node) -> bool
    ensures { result ≡ is_computed_in (out-Node node.now) }
{
    match node {
        Node::Tree(Kind::ComputedPropName, fields) => fields.len() == 2,
        _ => false,
    }
}

// Whether a node is the name `let` with a computed key.
fn is_let_bracket(node: &Node) -> bool
    ensures { result ≡ is_let_bracket_in node.now }
{
    match node {
        Node::Tree(Kind::MemberExpr, fields) => {
            let fields = fields.as_slice();
            fields.len() == 3
                && is_let(&fields[member_expr::OBJ])
                && is_computed(&fields[member_expr::PROP])
        }
        _ => false,
    }
}

// Whether a member of these fields is the name `let` with a computed key.
fn has_let_bracket(fields: &[Node]) -> bool
    requires { length fields.now ≡ 3 }
    ensures { result ≡ has_let_bracket_in fields.now }
{
    is_let(&fields[member_expr::OBJ]) && is_computed(&fields[member_expr::PROP])
}

// The field whose start is that of the node, if there is one.
fn start_field(kind: Kind, fields: &[Node]) -> Option<usize>
    ensures field { result ≡ start_field_of kind fields.now }
    ensures within { IfSome result (λ i. i < length fields.now) }
{
    match kind {
        Kind::FnExpr if fields.len() == 2 => Some(fn_expr::FUNCTION),
        Kind::SeqExpr if fields.len() == 2 => Some(seq_expr::EXPRS),
        Kind::AssignExpr if fields.len() == 4 => Some(assign_expr::LEFT),
        Kind::CondExpr if fields.len() == 4 => Some(cond_expr::TEST),
        Kind::BinExpr if fields.len() == 4 => Some(bin_expr::LEFT),
        Kind::UpdateExpr if fields.len() == 4 => {
            if holds(&fields[update_expr::PREFIX]) {
                None
            } else {
                Some(update_expr::ARG)
            }
        }
        Kind::MemberExpr if fields.len() == 3 => {
            if has_let_bracket(fields) {
                None
            } else {
                Some(member_expr::OBJ)
            }
        }
        Kind::CallExpr | Kind::TaggedTpl | Kind::OptCall if fields.len() == 3 => {
            Some(call_expr::CALLEE)
        }
        Kind::OptChainExpr if fields.len() == 3 => {
            if holds(&fields[opt_chain_expr::OPTIONAL])
                && is_let_bracket(&fields[opt_chain_expr::BASE])
            {
                None
            } else {
                Some(opt_chain_expr::BASE)
            }
        }
        _ => None,
    }
}

// The start of a node of which no field says it.
fn own_start(kind: Kind, fields: &[Node]) -> Start
    ensures { begins result ≡ own_start_of kind fields.now }
{
    match kind {
        Kind::ObjectLit | Kind::ObjectPat => Start::Brace,
        Kind::ClassExpr => Start::ClassWord,
        Kind::Function if fields.len() == 5 => {
            if holds(&fields[function::IS_ASYNC]) {
                Start::AsyncFunction
            } else {
                Start::FunctionWord
            }
        }
        Kind::MemberExpr if fields.len() == 3 => Start::LetBracket,
        _ => Start::Other,
    }
}

/// What an expression begins with.
///
/// The time is in step with how long the way to the first token is.
pub fn start_of(node: &Node) -> Start
    ensures { begins result ≡ start_in node.now }
{
    match node {
        Node::List(items) => match items.as_slice() {
            [first, ..] => start_of(first),
            [] => Start::Other,
        },
        Node::Tree(kind, fields) => {
            let fields = fields.as_slice();
            match start_field(*kind, fields) {
                Some(index) => start_of(&fields[index]),
                None => own_start(*kind, fields),
            }
        }
        _ => Start::Other,
    }
}

/// The field that the node begins with, unless a pair is due round the node itself.
#[cycle(leading)]
pub fn leading_field(kind: Kind, fields: &[Node]) -> Option<usize>
    ensures field { (place : Places) → result ≡ leading_field_of place kind fields.now }
    ensures within { IfSome result (λ i. i < length fields.now) }
{
    match kind {
        Kind::SeqExpr if fields.len() == 2 => Some(seq_expr::EXPRS),
        Kind::AssignExpr if fields.len() == 4 => {
            if is_of(&fields[assign_expr::LEFT], Family::ObjectPattern) {
                None
            } else {
                Some(assign_expr::LEFT)
            }
        }
        Kind::CondExpr if fields.len() == 4 => Some(cond_expr::TEST),
        Kind::BinExpr if fields.len() == 4 => Some(bin_expr::LEFT),
        Kind::UpdateExpr if fields.len() == 4 => Some(update_expr::ARG),
        Kind::MemberExpr if fields.len() == 3 => {
            if has_let_bracket(fields) {
                None
            } else {
                Some(member_expr::OBJ)
            }
        }
        Kind::CallExpr | Kind::TaggedTpl | Kind::OptCall if fields.len() == 3 => {
            Some(call_expr::CALLEE)
        }
        Kind::OptChainExpr if fields.len() == 3 => {
            if leads(&fields[opt_chain_expr::BASE]) {
                Some(opt_chain_expr::BASE)
            } else {
                None
            }
        }
        _ => None,
    }
}

// Whether the pair that is due at the start of an expression stands round an expression in it.
#[cycle(leading)]
fn leads(node: &Node) -> bool
    ensures { (place : Places) → result ≡ leads_of place node.now }
{
    match node {
        Node::List(items) => !items.is_empty(),
        Node::Tree(kind, fields) => leading_field(*kind, fields.as_slice()).is_some(),
        _ => false,
    }
}
