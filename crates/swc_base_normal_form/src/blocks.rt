//! Blocks that keep an `else` out, and do nothing else.
ghost use Rattle.std.specs.Prelude.{◌≡◌, true};
ghost use Rattle.swc_tree_grammar.specs.Normal.{opened};
ghost use Rattle.swc_base_normal_form.specs.Forms.{is_one_open as is_one_left_open, opens as is_opening};

use std::mem;
use swc_base_fixer_unparen::takes_else;
use swc_tree_node::fields::block_stmt;
use swc_tree_node::{Kind, Node};

// Whether a list is one statement that ends in an `if` without `else`.
fn is_one_open(statements: &Node) -> bool
    ensures { result ≡ is_one_left_open statements.now }
{
    match statements {
        Node::List(items) if items.len() == 1 => takes_else(&items.as_slice()[0]),
        _ => false,
    }
}

// Whether a node is a block round such a statement.
fn opens(node: &Node) -> bool
    ensures { result ≡ is_opening node.now }
{
    match node {
        Node::Tree(Kind::BlockStmt, fields) if fields.len() == 2 => {
            is_one_open(&fields.as_slice()[block_stmt::STMTS])
        }
        _ => false,
    }
}

// The statement in a block.
fn statement_in(block: Node) -> Node
    requires { is_opening block ≡ true }
    ensures { result ≡ opened block }
{
    match block {
        Node::Tree(_, mut fields) => match fields.replace(block_stmt::STMTS, Node::Absent) {
            Node::List(mut statements) => statements.replace(0, Node::Absent),
            other => other,
        },
        other => other,
    }
}

/// Takes off a block round one statement that ends in an `if` without `else`.
pub fn open_block(node: &mut Node)
    ensures { node.new ≡ opened node.old }
{
    if opens(node) {
        let block = mem::replace(node, Node::Absent);
        *node = statement_in(block);
    }
}
