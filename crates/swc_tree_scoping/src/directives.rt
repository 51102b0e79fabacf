//! Strict mode code (ECMA-262, 11.2).
ghost use Rattle.std.specs.Prelude.{◌≡◌, option_map, slice_get};
ghost use Rattle.swc_tree_scoping.specs.Places.{flag_of, has_use_strict as says_strict, is_plain_function as is_plain, is_strict as makes_strict, items_of, directive_of, literal_of, says, statements_of, text_of};

use swc_tree_node::fields::{
    arrow_expr, block_stmt, constructor, expr_stmt, function, getter_prop, script, setter_prop, str,
};
use swc_tree_node::{Kind, Node};

/// Whether what is below a tree of that kind is strict code, whatever stands round it.
pub fn is_strict(kind: Kind, fields: &[Node]) -> bool
    ensures { result ≡ makes_strict kind fields.now }
{
    match kind {
        Kind::Module | Kind::Class => true,
        Kind::Script => has_use_strict(items(fields, script::BODY)),
        Kind::Function => has_use_strict(statements(fields, function::BODY)),
        Kind::ArrowExpr => has_use_strict(statements(fields, arrow_expr::BODY)),
        Kind::Constructor => has_use_strict(statements(fields, constructor::BODY)),
        Kind::GetterProp => has_use_strict(statements(fields, getter_prop::BODY)),
        Kind::SetterProp => has_use_strict(statements(fields, setter_prop::BODY)),
        _ => false,
    }
}

// Whether one of the leading string statements is `use strict`.
fn has_use_strict(statements: &[Node]) -> bool
    ensures { result ≡ says_strict statements.now }
{
    for statement in statements {
        match directive(statement) {
            Some(true) => return true,
            Some(false) => (),
            None => return false,
        }
    }
    false
}

// Whether a statement is a directive, and then whether it is `use strict`.
fn directive(statement: &Node) -> Option<bool>
    ensures { result ≡ directive_of statement.now }
{
    match statement {
        Node::Tree(Kind::ExprStmt, fields) => literal(fields.as_slice(), expr_stmt::EXPR),
        _ => None,
    }
}

fn literal(fields: &[Node], index: usize) -> Option<bool>
    ensures { result ≡ option_map says (literal_of (slice_get fields.now index)) }
{
    match fields.get(index) {
        Some(Node::Tree(Kind::Str, fields)) => text(fields.as_slice(), str::VALUE),
        _ => None,
    }
}

fn text(fields: &[Node], index: usize) -> Option<bool>
    ensures { result ≡ option_map says (text_of (slice_get fields.now index)) }
{
    match fields.get(index) {
        Some(Node::Text(text)) => Some(text.as_str() == "use strict"),
        _ => None,
    }
}

// The items of a list in a field.
fn items(fields: &[Node], index: usize) -> &[Node]
    ensures { result.now ≡ items_of (slice_get fields.now index) }
{
    match fields.get(index) {
        Some(Node::List(items)) => items.as_slice(),
        _ => &[],
    }
}

// The statements of a block in a field.
fn statements(fields: &[Node], index: usize) -> &[Node]
    ensures { result.now ≡ statements_of (slice_get fields.now index) }
{
    match fields.get(index) {
        Some(Node::Tree(Kind::BlockStmt, fields)) => items(fields.as_slice(), block_stmt::STMTS),
        _ => &[],
    }
}

/// Whether a function in a field is neither async nor a generator.
pub fn is_plain_function(fields: &[Node], index: usize) -> bool
    ensures { result ≡ is_plain (slice_get fields.now index) }
{
    match fields.get(index) {
        Some(Node::Tree(Kind::Function, fields)) => {
            !flag(fields.as_slice(), function::IS_GENERATOR)
                && !flag(fields.as_slice(), function::IS_ASYNC)
        }
        _ => false,
    }
}

fn flag(fields: &[Node], index: usize) -> bool
    ensures { result ≡ flag_of (slice_get fields.now index) }
{
    match fields.get(index) {
        Some(Node::Flag(flag)) => *flag,
        _ => false,
    }
}
