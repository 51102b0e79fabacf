//! Statements that are strings, and statements put in after them.
ghost use Rattle.std.specs.Prelude.{◌≡◌, ◌++◌, ◌↔◌, IsTrue, Some, OnOk, OnErr, codes, take, drop};
ghost use Rattle.std.specs.List.{prefix_len};
ghost use Rattle.std.specs.Option.{option_copied};
ghost use Rattle.swc_tree_scoping.specs.Places.{literal_of, string_of, text_of};
ghost use Rattle.swc_tree_ext.specs.Directives.{is_string, string_in};

use swc_tree_handle::Trees;
use swc_tree_handle::class::{self, Syntax};
use swc_tree_marks::NoMemory;
use swc_tree_node::fields::{expr_stmt, str};
use swc_tree_node::{Kind, Node};
use swc_tree_statements::Stmt;

/// A class of what may stand in the body of a program.
pub trait StmtLike: Syntax {}

impl StmtLike for class::Stmt {}

impl StmtLike for class::ModuleItem {}

/// Whether a statement is the directive `use strict` (ECMA-262, 11.2.1). It takes no memory.
pub fn is_use_strict(stmt: &Stmt) -> bool
    ensures { IsTrue result ↔ (string_in stmt.now ≡ Some (codes "use strict")) }
{
    match stmt {
        Stmt::Expr(stmt) => literal(stmt.expr.node()) == Some("use strict"),
        _ => false,
    }
}

/// Puts statements in after the leading ones that are strings, as directives are.
///
/// # Errors
///
/// `NoMemory` where memory was refused: the list then stays, and what was to go in is dropped.
pub fn prepend_stmts<C: StmtLike>(stmts: &mut Trees<C>, more: Trees<C>) -> Result<(), NoMemory>
    ensures ok { let count = prefix_len is_string stmts.old in OnOk result (stmts.new ≡ take count stmts.old ++ more ++ drop count stmts.old) }
    ensures err { OnErr result (stmts.new ≡ stmts.old) }
{
    let place = leading_strings(stmts.as_slice());
    stmts.insert_all(place, more)?;
    Ok(())
}

// How many statements at the front are strings.
fn leading_strings(stmts: &[Node]) -> usize
    ensures { result ≡ prefix_len is_string stmts.now }
{
    for (i, stmt) in stmts.iter().enumerate() {
        if !is_string(stmt) {
            return i;
        }
    }
    stmts.len()
}

// Whether a statement is a string.
fn is_string(stmt: &Node) -> bool
    ensures { result ≡ is_string stmt.now }
{
    string(stmt).is_some()
}

// The string that a statement is, if it is one.
fn string(stmt: &Node) -> Option<&str>
    ensures { option_copied result ≡ string_of stmt.now }
{
    match stmt {
        Node::Tree(Kind::ExprStmt, fields) => match fields.get(expr_stmt::EXPR) {
            Some(expr) => literal(expr),
            None => None,
        },
        _ => None,
    }
}

// The value of a string literal, if the node is one.
fn literal(expr: &Node) -> Option<&str>
    ensures { option_copied result ≡ literal_of (Some expr.now) }
{
    match expr {
        Node::Tree(Kind::Str, fields) => text(fields.get(str::VALUE)),
        _ => None,
    }
}

// The text that a node is, if there is one and it is a text.
fn text(node: Option<&Node>) -> Option<&str>
    ensures { option_copied result ≡ text_of (option_copied node.entry) }
{
    match node {
        Some(Node::Text(text)) => Some(text.as_str()),
        _ => None,
    }
}
