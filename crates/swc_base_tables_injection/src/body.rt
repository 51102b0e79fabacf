//! Statements that go into the body of a program.
ghost use Rattle.std.specs.Prelude.{◌≡◌, IfOk, Some, is_some};
ghost use Rattle.std.specs.List.{prefix_len};
ghost use Rattle.std.specs.Option.{option_copied};
ghost use Rattle.swc_tree_node.specs.declared.node.Node.{List as Many, out-Node};
ghost use Rattle.swc_tree_scoping.specs.Places.{literal_of, string_of, text_of};
ghost use Rattle.swc_base_tables_injection.specs.Bodies.{behind_strings as are_behind_strings, body_in as is_body_in, fields_with as are_fields_with, is_string as is_a_string, program_kind as is_program_kind, put_in as is_put_in};

use swc_tree_items::Items;
use swc_tree_marks::NoMemory;
use swc_tree_node::fields::{expr_stmt, module_, str};
use swc_tree_node::{Kind, Node};

// The text that a node is, if there is one and it is a text.
fn text(node: Option<&Node>) -> Option<&str>
    ensures { option_copied result ≡ text_of (option_copied node.entry) }
{
    match node {
        Some(Node::Text(text)) => Some(text.as_str()),
        _ => None,
    }
}

// The value of a string literal, if the node is one.
fn literal(expr: &Node) -> Option<&str>
    ensures { option_copied result ≡ literal_of (Some expr.now) }
{
    match expr {
        Node::Tree(Kind::Str, fields) => text(fields.get(str::VALUE)),
        _ => None,
    }
}

// The string that a statement is, if it is one.
fn string(stmt: &Node) -> Option<&str>
    ensures { option_copied result ≡ string_of stmt.now }
{
    match stmt {
        Node::Tree(Kind::ExprStmt, fields) => match fields.get(expr_stmt::EXPR) {
            Some(expr) => literal(expr),
            None => None,
        },
        _ => None,
    }
}

// Whether a statement is a string.
fn is_string(stmt: &Node) -> bool
    ensures { result ≡ is_a_string stmt.now }
{
    string(stmt).is_some()
}

// How many statements at the front are strings.
fn leading_strings(stmts: &[Node]) -> usize
    ensures { result ≡ prefix_len is_a_string stmts.now }
{
    for (i, stmt) in stmts.iter().enumerate() {
        if !is_string(stmt) {
            return i;
        }
    }
    stmts.len()
}

// The statements with more behind the leading ones that are strings.
fn behind_strings(mut body: Items<Node>, more: Items<Node>) -> Result<Items<Node>, NoMemory>
    ensures { IfOk result (λ stmts. stmts ≡ are_behind_strings more body) }
{
    let place = leading_strings(body.as_slice());
    body.insert_all(place, more)?;
    Ok(body)
}

// The body of a program, with more statements.
fn body_in(body: Node, more: Items<Node>) -> Result<Node, NoMemory>
    ensures { IfOk result (λ node. node ≡ is_body_in more body (out-Node body)) }
{
    match body {
        Node::List(stmts) => Ok(Node::List(behind_strings(stmts, more)?)),
        other => Ok(other),
    }
}

// The fields of a program, with more statements in its body.
fn fields_with(mut fields: Items<Node>, more: Items<Node>) -> Result<Items<Node>, NoMemory>
    ensures { IfOk result (λ now. now ≡ are_fields_with more fields) }
{
    if fields.len() <= module_::BODY {
        return Ok(fields);
    }
    let body = fields.replace(module_::BODY, Node::Absent);
    let body = body_in(body, more)?;
    fields.set(module_::BODY, body);
    Ok(fields)
}

/// What program a node is, if it is one: a module or a script.
pub fn program_kind(node: &Node) -> Option<Kind>
    ensures { result ≡ is_program_kind node.now }
{
    match node {
        Node::Tree(Kind::Module, _) => Some(Kind::Module),
        Node::Tree(Kind::Script, _) => Some(Kind::Script),
        _ => None,
    }
}

/// The program with more statements, behind the leading ones that are strings.
pub fn put_in(program: Node, more: Items<Node>) -> Result<Node, NoMemory>
    ensures { IfOk result (λ answer. answer ≡ is_put_in more program) }
{
    match program {
        Node::Tree(Kind::Module, fields) => {
            Ok(Node::Tree(Kind::Module, fields_with(fields, more)?))
        }
        Node::Tree(Kind::Script, fields) => {
            Ok(Node::Tree(Kind::Script, fields_with(fields, more)?))
        }
        other => Ok(other),
    }
}
