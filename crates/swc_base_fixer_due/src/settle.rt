//! What stands in a place once the pairs that it asks for are set.
ghost use Rattle.std.specs.Prelude.{◌≡◌, ◌||◌, not, true, length, map, IfOk};
ghost use Rattle.swc_tree_node.specs.declared.kind.Kind.TheVariants as kind;
ghost use Rattle.swc_tree_node.specs.declared.node.Node.{Tree};
ghost use Rattle.swc_tree_node.specs.declared.node.Node.TheOpen.{Node-F};
ghost use Rattle.swc_tree_grammar.specs.Demands.Demand.{Each, Key, NewCallee};
ghost use Rattle.swc_tree_grammar.specs.Due.{Places, call_paired as call_in_pair, key_in, settled, to_level as at_level};
ghost use Rattle.swc_tree_grammar.specs.Kinds.{has_kind, is_literal};
ghost use Rattle.swc_tree_grammar.specs.Readers.{none};
ghost use Rattle.swc_base_fixer_due.specs.Naming.{named};
ghost use Rattle.swc_base_fixer_due.specs.Record.{place_in};
ghost use Rattle.swc_base_fixer_due.specs.Settled.{settled_by};
ghost use Rattle.swc_base_fixer_demands.specs.Test.{asked};

use crate::pair::{pair, pair_if};
use crate::reader::{Naming, is_named};
use crate::record::Record;
use crate::row::Ask;
use std::alloc::{AllocError, Global};
use swc_base_fixer_demands::{Family, Test, at_least, called_field, is_of, may_be_new, meets};
use swc_tree_items::Items;
use swc_tree_node::fields::computed_prop_name;
use swc_tree_node::{Kind, Node};

// An expression, in a pair if it is not of at least a level.
fn to_level(alloc: Global, recorded: &Record, level: u8, expr: Node) -> Result<Node, AllocError>
    ensures { IfOk result (λ t. t ≡ at_level level (place_in recorded.now) expr) }
{
    let is_due = !at_least(level, &expr);
    pair_if(alloc, recorded, is_due, expr)
}

fn each_to_level(
    alloc: Global,
    recorded: &Record,
    level: u8,
    mut exprs: Items<Node>,
) -> Result<Items<Node>, AllocError>
    ensures { IfOk result (λ r. r ≡ map (at_level level (place_in recorded.now)) exprs) }
{
    for i in 0..exprs.len() {
        let expr = exprs.replace(i, Node::Absent);
        let done = to_level(alloc, recorded, level, expr)?;
        exprs.set(i, done);
    }
    Ok(exprs)
}

// A list, each of whose items is of at least a level.
fn list_to_level(
    alloc: Global,
    recorded: &Record,
    level: u8,
    list: Node,
) -> Result<Node, AllocError>
    ensures { IfOk result (λ t. t ≡ settled (place_in recorded.now) (Each level) none list) }
{
    match list {
        Node::List(exprs) => {
            let exprs = each_to_level(alloc, recorded, level, exprs)?;
            Ok(Node::List(exprs))
        }
        _ => Ok(Node::List(Items::new(alloc))),
    }
}

fn computed_key(
    alloc: Global,
    recorded: &Record,
    mut fields: Items<Node>,
) -> Result<Node, AllocError>
    requires { length fields ≡ 2 }
    ensures { IfOk result (λ t. t ≡ key_in (place_in recorded.now) (Tree kind.ComputedPropName fields) (Node-F.Tree kind.ComputedPropName fields)) }
{
    let expr = fields.replace(computed_prop_name::EXPR, Node::Absent);
    let expr = to_level(alloc, recorded, 2, expr)?;
    fields.set(computed_prop_name::EXPR, expr);
    Ok(Node::Tree(Kind::ComputedPropName, fields))
}

// A key, whose expression is of level 2 if it is computed.
fn key(alloc: Global, recorded: &Record, key: Node) -> Result<Node, AllocError>
    ensures { IfOk result (λ t. t ≡ settled (place_in recorded.now) Key none key) }
{
    match key {
        Node::Tree(kind, fields) => match kind {
            Kind::ComputedPropName if fields.len() == 2 => { computed_key(alloc, recorded, fields) }
            kind => Ok(Node::Tree(kind, fields)),
        },
        key => Ok(key),
    }
}

// An expression with a pair round the outermost call of its objects and tags, or round itself where there is none.
fn call_paired(alloc: Global, recorded: &Record, node: Node) -> Result<Node, AllocError>
    ensures { IfOk result (λ t. t ≡ call_in_pair (place_in recorded.now) node) }
{
    match node {
        Node::Tree(kind, mut fields) => match called_field(kind, fields.as_slice()) {
            Some(index) => {
                let called = fields.replace(index, Node::Absent);
                let called = call_paired(alloc, recorded, called)?;
                fields.set(index, called);
                Ok(Node::Tree(kind, fields))
            }
            None => pair(alloc, recorded, Node::Tree(kind, fields)),
        },
        node => pair(alloc, recorded, node),
    }
}

// What `new` calls; `bare` says whether it has no arguments.
fn new_callee(
    alloc: Global,
    recorded: &Record,
    bare: bool,
    callee: Node,
) -> Result<Node, AllocError>
    ensures { IfOk result (λ t. t ≡ settled (place_in recorded.now) (NewCallee bare) (has_kind is_literal) callee) }
{
    if is_of(&callee, Family::Literal) {
        pair(alloc, recorded, callee)
    } else if may_be_new(bare, &callee) {
        Ok(callee)
    } else {
        call_paired(alloc, recorded, callee)
    }
}

// One expression, in a pair if it is not what is asked or if the reader's table names it.
#[tactic(auto, using(crate::proofs::Settled::single))]
fn single(
    alloc: Global,
    recorded: &Record,
    test: Test,
    naming: Naming,
    expr: Node,
) -> Result<Node, AllocError>
    ensures { IfOk result (λ t. t ≡ settled (place_in recorded.now) (asked test) (named naming) expr) }
{
    let is_due = is_named(naming, &expr) || !meets(test, &expr);
    pair_if(alloc, recorded, is_due, expr)
}

/// Whether what stands in a place is what is asked there, so that it stays. Where the answer is no it may still stay.
pub fn stays(ask: Ask, node: &Node) -> bool
    ensures { result ≡ true → (p : Places) → settled_by p node.now ask ≡ node.now }
{
    match ask {
        Ask::Nothing => true,
        Ask::Single(test, naming) => meets(test, node) && !is_named(naming, node),
        Ask::Key => !matches!(node, Node::Tree(Kind::ComputedPropName, _)),
        Ask::Each(_) | Ask::NewCallee(_) => false,
    }
}

/// What stands in a place once the pairs that it asks for are set.
pub fn settle(alloc: Global, recorded: &Record, ask: Ask, node: Node) -> Result<Node, AllocError>
    ensures { IfOk result (λ t. t ≡ settled_by (place_in recorded.now) node ask) }
{
    match ask {
        Ask::Nothing => Ok(node),
        Ask::Each(level) => list_to_level(alloc, recorded, level, node),
        Ask::Key => key(alloc, recorded, node),
        Ask::NewCallee(bare) => new_callee(alloc, recorded, bare, node),
        Ask::Single(test, naming) => single(alloc, recorded, test, naming, node),
    }
}
