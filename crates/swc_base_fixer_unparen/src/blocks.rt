//! Blocks round first branches of `if` that could take an `else`.
ghost use Rattle.std.specs.Prelude.{◌≡◌, ◌<◌, length, map, IfOk, IfSome, OnOk};
ghost use Rattle.swc_tree_node.specs.declared.node.Node.{Tree};
ghost use Rattle.swc_tree_node.specs.declared.kind.Kind.TheVariants as kind;
ghost use Rattle.swc_tree_node.specs.declared.node.Node.TheOpen.{Node-F};
ghost use Rattle.swc_tree_grammar.specs.Blocks.{block as block_of, block_step, branch as branch_of, takes_else as takes_an_else, with_blocks};
ghost use Rattle.swc_base_fixer_unparen.specs.Fields.{last_statement as last_statement_of};

use std::alloc::{AllocError, Global};
use swc_tree_grammar::span_of;
use swc_tree_items::Items;
use swc_tree_node::fields::if_stmt;
use swc_tree_node::{Kind, Node};

// The field with the statement that stands last in a statement, if it ends in one.
fn last_statement(kind: Kind, fields: &[Node]) -> Option<usize>
    ensures field { result ≡ last_statement_of kind fields.now }
    ensures within { IfSome result (λ i. i < length fields.now) }
{
    match kind {
        Kind::LabeledStmt | Kind::WhileStmt | Kind::WithStmt if fields.len() == 3 => Some(2),
        Kind::IfStmt | Kind::ForInStmt if fields.len() == 4 => Some(3),
        Kind::ForStmt | Kind::ForOfStmt if fields.len() == 5 => Some(4),
        _ => None,
    }
}

/// Whether an `else` right behind the statement would go to an `if` in it.
pub fn takes_else(statement: &Node) -> bool
    ensures { result ≡ takes_an_else statement.now }
{
    match statement {
        Node::Absent => true,
        Node::Tree(kind, fields) => {
            let fields = fields.as_slice();
            match last_statement(*kind, fields) {
                Some(index) => takes_else(&fields[index]),
                None => false,
            }
        }
        _ => false,
    }
}

// The statement in a block of its own.
fn block(alloc: Global, statement: Node) -> Result<Node, AllocError>
    ensures { IfOk result (λ t. t ≡ block_of statement) }
{
    let span = span_of(&statement);
    let mut statements = Items::new(alloc);
    statements.push(statement)?;
    let mut fields = Items::new(alloc);
    fields.push(Node::Span(span))?;
    fields.push(Node::List(statements))?;
    Ok(Node::Tree(Kind::BlockStmt, fields))
}

// The first branch of an `if`, in a block if an `else` could go into it.
fn branch(alloc: Global, statement: Node) -> Result<Node, AllocError>
    ensures { IfOk result (λ t. t ≡ branch_of statement) }
{
    if takes_else(&statement) {
        let block = block(alloc, statement)?;
        Ok(block)
    } else {
        Ok(statement)
    }
}

fn choice(alloc: Global, fields: &mut Items<Node>) -> Result<(), AllocError>
    requires { length fields.old ≡ 4 }
    ensures { OnOk result (Tree kind.IfStmt fields.new ≡ block_step (Node-F.Tree kind.IfStmt fields.old)) }
{
    let statement = fields.replace(if_stmt::CONS, Node::Absent);
    let statement = branch(alloc, statement)?;
    fields.set(if_stmt::CONS, statement);
    Ok(())
}

// The fields of a tree in which each branch has its block, with that of its own.
fn blocked(alloc: Global, kind: Kind, fields: &mut Items<Node>) -> Result<(), AllocError>
    ensures { OnOk result (Tree kind fields.new ≡ block_step (Node-F.Tree kind fields.old)) }
{
    match kind {
        Kind::IfStmt if fields.len() == 4 => choice(alloc, fields),
        _ => Ok(()),
    }
}

/// The tree with a block round each first branch of an `if` that ends in an `if` without `else`.
///
/// It goes through the tree once, in place; only blocks are made anew.
pub fn add_blocks(alloc: Global, node: Node) -> Result<Node, AllocError>
    ensures { IfOk result (λ t. t ≡ with_blocks node) }
{
    let mut node = node;
    block_node(alloc, &mut node)?;
    Ok(node)
}

#[cycle(blocks)]
fn block_node(alloc: Global, node: &mut Node) -> Result<(), AllocError>
    ensures { OnOk result (node.new ≡ with_blocks node.old) }
{
    let kind = node.kind();
    let Some(children) = node.children_mut() else {
        return Ok(());
    };
    match kind {
        Some(kind) => block_fields(alloc, kind, children),
        None => block_all(alloc, children),
    }
}

#[cycle(blocks)]
fn block_fields(alloc: Global, kind: Kind, fields: &mut Items<Node>) -> Result<(), AllocError>
    ensures { OnOk result (Tree kind fields.new ≡ with_blocks (Tree kind fields.old)) }
{
    block_all(alloc, fields)?;
    blocked(alloc, kind, fields)
}

#[cycle(blocks)]
fn block_all(alloc: Global, items: &mut Items<Node>) -> Result<(), AllocError>
    ensures { OnOk result (items.new ≡ map with_blocks items.old) }
{
    for i in 0..items.len() {
        if items.as_slice()[i].has_parts() {
            block_node(alloc, items.item_mut(i))?;
        }
    }
    Ok(())
}
