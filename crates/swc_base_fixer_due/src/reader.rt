//! Which expressions stand in parentheses for a reader, though the grammar takes them bare.
ghost use Rattle.std.specs.Prelude.{◌≡◌};
ghost use Rattle.swc_tree_grammar.specs.Readers.{assigns_to as is_assigning_to, is_equality as is_equality_word, is_instance as is_instance_word, is_odd_item as is_odd_item_in, is_odd_left as is_odd_left_in, odd_unary as odd_unary_in, unary_word_in};
ghost use Rattle.swc_tree_node.specs.declared.node.Node.{out-Node};
ghost use Rattle.swc_base_fixer_demands.specs.Family.{kinds_of};
ghost use Rattle.swc_base_fixer_due.specs.Naming.{named};

use swc_base_fixer_demands::{Family, is_of, word_of};
use swc_tree_node::fields::{assign_expr, unary_expr};
use swc_tree_node::{Kind, Node, Word};

/// Which expressions the reader's table names in a place.
#[derive(Clone, Copy)]
pub enum Naming {
    Nothing,
    /// Those of a family.
    Of(Family),
    /// Assignments to what is of a family.
    AssignmentTo(Family),
    /// What is odd on the left of an operator.
    OddLeft(Option<Word>),
    /// A `yield`, where the flag holds.
    YieldIf(bool),
}

// Whether a word is `==`, `!=`, `===` or `!==`.
fn is_equality(word: Option<Word>) -> bool
    ensures { result ≡ is_equality_word word }
{
    matches!(
        word,
        Some(Word::EqEq | Word::NotEq | Word::EqEqEq | Word::NotEqEq)
    )
}

// Whether a word is `instanceof`.
fn is_instance(word: Option<Word>) -> bool
    ensures { result ≡ is_instance_word word }
{
    matches!(word, Some(Word::InstanceOf))
}

// Whether an operator before its operand is odd on the left of an operator of two sides.
fn is_odd_unary(op: Option<Word>, unary: Option<Word>) -> bool
    ensures { result ≡ odd_unary_in op unary }
{
    match unary {
        Some(Word::Delete) => true,
        Some(Word::Void) => !is_equality(op),
        _ => false,
    }
}

// The operator that stands before its operand, if the node is such an expression.
fn unary_word(node: &Node) -> Option<Word>
    ensures { result ≡ unary_word_in (out-Node node.now) }
{
    match node {
        Node::Tree(Kind::UnaryExpr, fields) => {
            let fields = fields.as_slice();
            if fields.len() == 3 {
                word_of(&fields[unary_expr::OP])
            } else {
                None
            }
        }
        _ => None,
    }
}

// Whether the reader's table names an expression on the left of an operator.
fn is_odd_left(op: Option<Word>, node: &Node) -> bool
    ensures { result ≡ is_odd_left_in op node.now }
{
    is_odd_unary(op, unary_word(node))
        || (is_instance(op) || is_equality(op)) && is_of(node, Family::Object)
}

// Whether a node is an assignment to what is of a family.
fn assigns_to(node: &Node, family: Family) -> bool
    ensures { result ≡ is_assigning_to (kinds_of family) node.now }
{
    match node {
        Node::Tree(Kind::AssignExpr, fields) => {
            let fields = fields.as_slice();
            fields.len() == 4 && is_of(&fields[assign_expr::LEFT], family)
        }
        _ => false,
    }
}

/// Whether the reader's table names an expression in a place where it names these.
pub fn is_named(naming: Naming, node: &Node) -> bool
    ensures { result ≡ named naming node.now }
{
    match naming {
        Naming::Nothing => false,
        Naming::Of(family) => is_of(node, family),
        Naming::AssignmentTo(family) => assigns_to(node, family),
        Naming::OddLeft(op) => is_odd_left(op, node),
        Naming::YieldIf(flag) => flag && is_of(node, Family::Yield),
    }
}

/// Whether the reader's table names an expression before the last of a sequence that is a statement.
pub fn is_odd_item(node: &Node) -> bool
    ensures { result ≡ is_odd_item_in node.now }
{
    is_of(node, Family::Object)
        || is_of(node, Family::Class)
        || assigns_to(node, Family::ObjectPattern)
}
