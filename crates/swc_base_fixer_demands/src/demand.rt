//! What a place asks of the expression in it (ECMA-262, 13.2 to 13.16).
ghost use Rattle.std.specs.Prelude.{◌≡◌};
ghost use Rattle.swc_tree_grammar.specs.Demands.{is_bare_new as is_bare_new_in, is_nullish as is_nullish_in, meets as is_met};
ghost use Rattle.swc_tree_grammar.specs.Demands.Demand.{NewCallee};
ghost use Rattle.swc_base_fixer_demands.specs.Test.{asked, behind_operator as behind_operator_of, left_test, object_test, right_test};

use crate::family::{Family, is_of};
use crate::level::{at_least, is_absent, level_of_word, word_of};
use swc_tree_node::fields::{bin_expr, new_expr};
use swc_tree_node::{Kind, Node, Word};

/// What is asked of one expression.
#[derive(Clone, Copy)]
pub enum Test {
    /// At least a level.
    AtLeast(u8),
    /// Of an arrow's body: a block, or level 2.
    Body,
    /// Of what is called, tagged, or has its member taken.
    Operand,
    /// The same in an optional chain.
    Link,
    /// Of a side of `||`.
    OrSide,
    /// Of a side of `??`.
    NullishSide,
}

/// What is asked behind an operator that stands before its operand, and behind `await`.
pub fn behind_operator() -> Test
    ensures { result ≡ behind_operator_of }
{
    Test::AtLeast(15)
}

/// What is asked on the left of an operator.
pub fn left_side(op: Option<Word>) -> Test
    ensures { result ≡ left_test op }
{
    match op {
        Some(Word::LogicalOr) => Test::OrSide,
        Some(Word::NullishCoalescing) => Test::NullishSide,
        Some(Word::Exp) => Test::AtLeast(16),
        op => Test::AtLeast(level_of_word(op)),
    }
}

/// What is asked on the right of an operator.
pub fn right_side(op: Option<Word>) -> Test
    ensures { result ≡ right_test op }
{
    match op {
        Some(Word::LogicalOr) => Test::OrSide,
        Some(Word::LogicalAnd) => Test::AtLeast(5),
        Some(Word::NullishCoalescing) => Test::NullishSide,
        Some(Word::Exp) => Test::AtLeast(14),
        op => Test::AtLeast(level_of_word(op) + 1),
    }
}

/// What is asked of the object of a member, which may be the base of an optional chain.
pub fn object(in_chain: bool) -> Test
    ensures { result ≡ object_test in_chain }
{
    if in_chain { Test::Link } else { Test::Operand }
}

// Whether an expression is `new` without arguments.
fn is_bare_new(node: &Node) -> bool
    ensures { result ≡ is_bare_new_in node.now }
{
    match node {
        Node::Tree(Kind::NewExpr, fields) => {
            let fields = fields.as_slice();
            fields.len() == 3 && is_absent(&fields[new_expr::ARGS])
        }
        _ => false,
    }
}

// Whether an expression is a `??`.
fn is_nullish(node: &Node) -> bool
    ensures { result ≡ is_nullish_in node.now }
{
    match node {
        Node::Tree(Kind::BinExpr, fields) => {
            let fields = fields.as_slice();
            fields.len() == 4
                && matches!(
                    word_of(&fields[bin_expr::OP]),
                    Some(Word::NullishCoalescing)
                )
        }
        _ => false,
    }
}

/// Whether an expression is what is asked.
pub fn meets(test: Test, node: &Node) -> bool
    ensures { result ≡ is_met (asked test) node.now }
{
    match test {
        Test::AtLeast(level) => at_least(level, node),
        Test::Body => is_of(node, Family::Block) || at_least(2, node),
        Test::Operand => !is_of(node, Family::Chain) && !is_bare_new(node) && at_least(17, node),
        Test::Link => !is_bare_new(node) && at_least(17, node),
        Test::OrSide => !is_nullish(node) && at_least(4, node),
        Test::NullishSide => at_least(6, node) || is_nullish(node),
    }
}

/// Whether `new` may call an expression; `bare` says whether it has no arguments.
pub fn may_be_new(bare: bool, node: &Node) -> bool
    ensures { result ≡ is_met (NewCallee bare) node.now }
{
    at_least(18, node) || bare && is_bare_new(node)
}
