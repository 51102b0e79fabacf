//! Statements that may be directives (ECMA-262, 11.2.1).
ghost use Rattle.std.specs.Prelude.{◌≡◌, is_some, slice_get};
ghost use Rattle.swc_tree_scoping.specs.Places.{literal_of, text_of};
ghost use Rattle.swc_base_plain_form.specs.PlainForm.{holds_statements as is_holding, is_string as is_string_statement};

use swc_tree_node::fields::{expr_stmt, str};
use swc_tree_node::{Kind, Node};

/// Whether strings that lead the statements right in a node of the kind are directives: in a program, in what has a function's
/// body, and in the block that is such a body.
pub fn holds_statements(is_body: bool, kind: Kind) -> bool
    ensures { result ≡ is_holding is_body kind }
{
    match kind {
        Kind::Module
        | Kind::Script
        | Kind::Function
        | Kind::ArrowExpr
        | Kind::Constructor
        | Kind::GetterProp
        | Kind::SetterProp => true,
        Kind::BlockStmt => is_body,
        _ => false,
    }
}

/// Whether a node is a statement that is a string.
pub fn is_string(node: &Node) -> bool
    ensures { result ≡ is_string_statement node.now }
{
    match node {
        Node::Tree(Kind::ExprStmt, fields) => is_literal(fields.as_slice(), expr_stmt::EXPR),
        _ => false,
    }
}

fn is_literal(fields: &[Node], index: usize) -> bool
    ensures { result ≡ is_some (literal_of (slice_get fields.now index)) }
{
    match fields.get(index) {
        Some(Node::Tree(Kind::Str, fields)) => is_text(fields.as_slice(), str::VALUE),
        _ => false,
    }
}

fn is_text(fields: &[Node], index: usize) -> bool
    ensures { result ≡ is_some (text_of (slice_get fields.now index)) }
{
    matches!(fields.get(index), Some(Node::Text(_)))
}
