//! How tightly expressions bind (ECMA-262, 13.2 to 13.16).
ghost use Rattle.std.specs.Prelude.{◌≡◌, ◌≤◌, ◌<◌, length, IfSome};
ghost use Rattle.swc_tree_grammar.specs.Levels.{operator_level as operator_level_of, level_of_word as level_of_word_of, is_in as is_in_word, kind_level as kind_level_of, word_of as word_in, is_absent as is_nothing, is_called as is_called_in};
ghost use Rattle.swc_tree_grammar.specs.Demands.{at_least as is_at_least};
ghost use Rattle.swc_base_fixer_demands.specs.Fields.{called_field as called_field_of};
ghost use Rattle.swc_base_fixer_demands.specs.Least.{least, uncalled};

use swc_tree_node::fields::{bin_expr, member_expr, new_expr};
use swc_tree_node::{Kind, Node, Word};

// The level of an operator of two sides, and 0 of any other word.
fn operator_level(word: Word) -> u8
    ensures value { result ≡ operator_level_of word }
    ensures small { result ≤ 14 }
{
    match word {
        Word::LogicalOr | Word::NullishCoalescing => 4,
        Word::LogicalAnd => 5,
        Word::BitOr => 6,
        Word::BitXor => 7,
        Word::BitAnd => 8,
        Word::EqEq | Word::NotEq | Word::EqEqEq | Word::NotEqEq => 9,
        Word::Lt | Word::LtEq | Word::Gt | Word::GtEq | Word::In | Word::InstanceOf => 10,
        Word::LShift | Word::RShift | Word::ZeroFillRShift => 11,
        Word::Plus | Word::Minus => 12,
        Word::Mul | Word::Div | Word::Mod => 13,
        Word::Exp => 14,
        _ => 0,
    }
}

/// The word that a node is, if it is one.
pub fn word_of(node: &Node) -> Option<Word>
    ensures { result ≡ word_in node.now }
{
    match node {
        Node::Word(word) => Some(*word),
        _ => None,
    }
}

/// The level of an operator of two sides, and 0 of anything else.
pub fn level_of_word(word: Option<Word>) -> u8
    ensures value { result ≡ level_of_word_of word }
    ensures small { result ≤ 14 }
{
    match word {
        Some(word) => operator_level(word),
        None => 0,
    }
}

/// Whether a word is the operator `in`.
pub fn is_in(word: Option<Word>) -> bool
    ensures { result ≡ is_in_word word }
{
    matches!(word, Some(Word::In))
}

/// Whether nothing stands there.
pub fn is_absent(node: &Node) -> bool
    ensures { result ≡ is_nothing node.now }
{
    matches!(node, Node::Absent)
}

// The level of a kind whose fields do not matter.
fn kind_level(kind: Kind) -> u8
    ensures { result ≡ kind_level_of kind }
{
    match kind {
        Kind::SeqExpr => 1,
        Kind::AssignExpr | Kind::ArrowExpr | Kind::YieldExpr => 2,
        Kind::CondExpr => 3,
        Kind::UnaryExpr | Kind::AwaitExpr => 15,
        Kind::UpdateExpr => 16,
        Kind::CallExpr | Kind::OptChainExpr => 17,
        Kind::SuperPropExpr | Kind::MetaPropExpr => 18,
        _ => 19,
    }
}

/// The field with the object of a member or the tag of a template.
pub fn called_field(kind: Kind, fields: &[Node]) -> Option<usize>
    ensures field { result ≡ called_field_of kind fields.now }
    ensures within { IfSome result (λ i. i < length fields.now) }
{
    match kind {
        Kind::MemberExpr | Kind::TaggedTpl if fields.len() == 3 => Some(member_expr::OBJ),
        _ => None,
    }
}

// Whether the objects and tags on the left of an expression lead to a call.
//
// The time is in step with how many they are.
fn is_called(node: &Node) -> bool
    ensures { result ≡ is_called_in node.now }
{
    match node {
        Node::Tree(kind, fields) => {
            let fields = fields.as_slice();
            match called_field(*kind, fields) {
                Some(index) => is_called(&fields[index]),
                None => matches!(kind, Kind::CallExpr),
            }
        }
        _ => false,
    }
}

// The level that a node has at least: its own, but of a member or a tagged template that of a call.
fn least_level(node: &Node) -> u8
    ensures { result ≡ least node.now }
{
    match node {
        Node::Tree(kind, fields) => {
            let fields = fields.as_slice();
            match kind {
                Kind::BinExpr if fields.len() == 4 => level_of_word(word_of(&fields[bin_expr::OP])),
                Kind::MemberExpr | Kind::TaggedTpl if fields.len() == 3 => 17,
                Kind::NewExpr if fields.len() == 3 => {
                    if is_absent(&fields[new_expr::ARGS]) {
                        17
                    } else {
                        18
                    }
                }
                kind => kind_level(*kind),
            }
        }
        _ => 19,
    }
}

// Whether the objects and tags of a member or a tagged template lead to no call.
fn is_uncalled(node: &Node) -> bool
    ensures { result ≡ uncalled node.now }
{
    match node {
        Node::Tree(kind, fields) => {
            let fields = fields.as_slice();
            match called_field(*kind, fields) {
                Some(index) => !is_called(&fields[index]),
                None => false,
            }
        }
        _ => false,
    }
}

/// Whether an expression is of at least a level. Where nothing stands none is asked.
///
/// Only where level 18 is asked does it go down the spine of a member or a tagged template.
#[tactic(auto, using(crate::proofs::Least::by_least))]
pub fn at_least(level: u8, node: &Node) -> bool
    ensures { result ≡ is_at_least level node.now }
{
    is_absent(node) || level <= least_level(node) || level == 18 && is_uncalled(node)
}
