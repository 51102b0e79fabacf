//! What a place asks of the expression in it (ECMA-262, 13.2 to 13.16).
ghost use Rattle.std.specs.Prelude.{◌≡◌};
ghost use Rattle.std.specs.List.{list_all};
ghost use Rattle.swc_tree_node.specs.declared.node.Node.{out-Node};
ghost use Rattle.swc_tree_grammar.specs.Demands.{at_least as is_at_least, is_bare_new as is_bare_new_in, is_nullish as is_nullish_in, key_in, meets as is_met};
ghost use Rattle.swc_tree_grammar.specs.Kinds.{has_kind, is_block as is_block_kind, is_chain as is_optional_chain, is_private_name};
ghost use Rattle.swc_tree_grammar.specs.Shapes.{items_of};
ghost use Rattle.text_derives.specs.Demanded.{demanded, left_demand, right_demand};

use crate::level::{at_least, is_absent, level_of_word, word_of};
use swc_tree_node::fields::{bin_expr, computed_prop_name, new_expr};
use swc_tree_node::{Kind, Node, Word};

/// What is asked of an expression, or of a list or a key.
#[derive(Clone, Copy)]
pub enum Demand {
    /// Any expression, or none stands there.
    Any,
    /// At least a level.
    AtLeast(u8),
    /// Of each item of a list at least a level.
    Each(u8),
    /// Of a computed key that its expression has level 2.
    Key,
    /// Of an arrow's body: a block, or level 2.
    Body,
    /// Of what is called, tagged, or has its member taken.
    Operand,
    /// The same in an optional chain.
    Link,
    /// Of what `new` calls, which may have no arguments.
    NewCallee(bool),
    /// Of a side of `||`.
    OrSide,
    /// Of a side of `??`.
    NullishSide,
}

/// What is asked on the left of an operator.
pub fn left_side(op: Option<Word>) -> Demand
    ensures { result ≡ left_demand op }
{
    match op {
        Some(Word::LogicalOr) => Demand::OrSide,
        Some(Word::NullishCoalescing) => Demand::NullishSide,
        Some(Word::Exp) => Demand::AtLeast(16),
        op => Demand::AtLeast(level_of_word(op)),
    }
}

/// What is asked on the right of an operator.
pub fn right_side(op: Option<Word>) -> Demand
    ensures { result ≡ right_demand op }
{
    match op {
        Some(Word::LogicalOr) => Demand::OrSide,
        Some(Word::LogicalAnd) => Demand::AtLeast(5),
        Some(Word::NullishCoalescing) => Demand::NullishSide,
        Some(Word::Exp) => Demand::AtLeast(14),
        op => Demand::AtLeast(level_of_word(op) + 1),
    }
}

// Whether an expression is `new` without arguments.
fn is_bare_new(node: &Node) -> bool
    ensures { result ≡ is_bare_new_in node.now }
{
    match node {
        Node::Tree(Kind::NewExpr, fields) => {
            let fields = fields.as_slice();
            fields.len() == 3 && is_absent(&fields[new_expr::ARGS])
        }
        _ => false,
    }
}

// Whether an expression is a `??`.
fn is_nullish(node: &Node) -> bool
    ensures { result ≡ is_nullish_in node.now }
{
    match node {
        Node::Tree(Kind::BinExpr, fields) => {
            let fields = fields.as_slice();
            fields.len() == 4
                && matches!(
                    word_of(&fields[bin_expr::OP]),
                    Some(Word::NullishCoalescing)
                )
        }
        _ => false,
    }
}

/// Whether a node is a block.
pub fn is_block(node: &Node) -> bool
    ensures { result ≡ has_kind is_block_kind node.now }
{
    match node {
        Node::Tree(kind, _) => matches!(kind, Kind::BlockStmt),
        _ => false,
    }
}

// Whether a node is an optional chain.
fn is_chain(node: &Node) -> bool
    ensures { result ≡ is_optional_chain node.now }
{
    match node {
        Node::Tree(kind, _) => matches!(kind, Kind::OptChainExpr),
        _ => false,
    }
}

/// Whether a node is a private name.
pub fn is_private(node: &Node) -> bool
    ensures { result ≡ has_kind is_private_name node.now }
{
    match node {
        Node::Tree(kind, _) => matches!(kind, Kind::PrivateName),
        _ => false,
    }
}

/// The items of a list; no other node has any.
pub fn items(node: &Node) -> &[Node]
    ensures { result.now ≡ items_of node.now }
{
    match node {
        Node::List(items) => items.as_slice(),
        _ => &[],
    }
}

// Whether each of some expressions is of at least a level.
fn each_at_least(level: u8, nodes: &[Node]) -> bool
    ensures { result ≡ list_all (is_at_least level) nodes.now }
{
    nodes.iter().all(|node| at_least(level, node))
}

// Whether a key that is computed has an expression of level 2.
fn is_key(node: &Node) -> bool
    ensures { result ≡ key_in (out-Node node.now) }
{
    match node {
        Node::Tree(Kind::ComputedPropName, fields) => {
            let fields = fields.as_slice();
            fields.len() != 2 || at_least(2, &fields[computed_prop_name::EXPR])
        }
        _ => true,
    }
}

/// Whether a node is what is asked.
pub fn meets(demand: Demand, node: &Node) -> bool
    ensures { result ≡ is_met (demanded demand) node.now }
{
    match demand {
        Demand::Any => true,
        Demand::AtLeast(level) => at_least(level, node),
        Demand::Each(level) => each_at_least(level, items(node)),
        Demand::Key => is_key(node),
        Demand::Body => is_block(node) || at_least(2, node),
        Demand::Operand => !is_chain(node) && !is_bare_new(node) && at_least(17, node),
        Demand::Link => !is_bare_new(node) && at_least(17, node),
        Demand::NewCallee(bare) => at_least(18, node) || bare && is_bare_new(node),
        Demand::OrSide => !is_nullish(node) && at_least(4, node),
        Demand::NullishSide => at_least(6, node) || is_nullish(node),
    }
}
