//! Printed by tools/print_table.py from tools/tree.txt.
ghost use Rattle.std.specs.Prelude.{◌≡◌, IsTrue};
ghost use Rattle.swc_tree_node.specs.declared.kind.WordClass.TheVariants as word_class;
ghost use Rattle.swc_tree_node.specs.declared.node.Node.TheVariants as leaf;
ghost use Rattle.swc_tree_node.specs.declared.slot.Slot.TheVariants.{One};
ghost use Rattle.swc_tree_node.specs.declared.slot.Content.TheVariants.{Word as Of};
ghost use Rattle.swc_tree_node.specs.Fits.{is_among};
ghost use Rattle.swc_tree_operations.specs.Nodes.{binary_op_word};

use std::alloc::{AllocError, Global};
use swc_tree_handle::Place;
use swc_tree_node::{Node, Word};

/// The operator of a binary or logical expression.
#[derive(Clone, Copy, Debug, PartialEq, Eq, Hash)]
pub enum BinaryOp {
    EqEq,
    NotEq,
    EqEqEq,
    NotEqEq,
    Lt,
    LtEq,
    Gt,
    GtEq,
    LShift,
    RShift,
    ZeroFillRShift,
    Add,
    Sub,
    Mul,
    Div,
    Mod,
    BitOr,
    BitXor,
    BitAnd,
    LogicalOr,
    LogicalAnd,
    In,
    InstanceOf,
    Exp,
    NullishCoalescing,
}

impl BinaryOp {
    /// The word.
    pub fn word(self) -> Word
        ensures is { result ≡ binary_op_word self }
        ensures among { IsTrue (is_among result word_class.BinaryOp) }
    {
        match self {
            BinaryOp::EqEq => Word::EqEq,
            BinaryOp::NotEq => Word::NotEq,
            BinaryOp::EqEqEq => Word::EqEqEq,
            BinaryOp::NotEqEq => Word::NotEqEq,
            BinaryOp::Lt => Word::Lt,
            BinaryOp::LtEq => Word::LtEq,
            BinaryOp::Gt => Word::Gt,
            BinaryOp::GtEq => Word::GtEq,
            BinaryOp::LShift => Word::LShift,
            BinaryOp::RShift => Word::RShift,
            BinaryOp::ZeroFillRShift => Word::ZeroFillRShift,
            BinaryOp::Add => Word::Plus,
            BinaryOp::Sub => Word::Minus,
            BinaryOp::Mul => Word::Mul,
            BinaryOp::Div => Word::Div,
            BinaryOp::Mod => Word::Mod,
            BinaryOp::BitOr => Word::BitOr,
            BinaryOp::BitXor => Word::BitXor,
            BinaryOp::BitAnd => Word::BitAnd,
            BinaryOp::LogicalOr => Word::LogicalOr,
            BinaryOp::LogicalAnd => Word::LogicalAnd,
            BinaryOp::In => Word::In,
            BinaryOp::InstanceOf => Word::InstanceOf,
            BinaryOp::Exp => Word::Exp,
            BinaryOp::NullishCoalescing => Word::NullishCoalescing,
        }
    }

    /// What the word is here.
    pub fn from_word(word: Word) -> BinaryOp
        requires { IsTrue (is_among word word_class.BinaryOp) }
        ensures { binary_op_word result ≡ word }
    {
        match word {
            Word::EqEq => BinaryOp::EqEq,
            Word::NotEq => BinaryOp::NotEq,
            Word::EqEqEq => BinaryOp::EqEqEq,
            Word::NotEqEq => BinaryOp::NotEqEq,
            Word::Lt => BinaryOp::Lt,
            Word::LtEq => BinaryOp::LtEq,
            Word::Gt => BinaryOp::Gt,
            Word::GtEq => BinaryOp::GtEq,
            Word::LShift => BinaryOp::LShift,
            Word::RShift => BinaryOp::RShift,
            Word::ZeroFillRShift => BinaryOp::ZeroFillRShift,
            Word::Plus => BinaryOp::Add,
            Word::Minus => BinaryOp::Sub,
            Word::Mul => BinaryOp::Mul,
            Word::Div => BinaryOp::Div,
            Word::Mod => BinaryOp::Mod,
            Word::BitOr => BinaryOp::BitOr,
            Word::BitXor => BinaryOp::BitXor,
            Word::BitAnd => BinaryOp::BitAnd,
            Word::LogicalOr => BinaryOp::LogicalOr,
            Word::LogicalAnd => BinaryOp::LogicalAnd,
            Word::In => BinaryOp::In,
            Word::InstanceOf => BinaryOp::InstanceOf,
            Word::Exp => BinaryOp::Exp,
            Word::NullishCoalescing => BinaryOp::NullishCoalescing,
            _ => unreachable!(),
        }
    }
}

impl Place for BinaryOp {
    ghost slot = { One (Of word_class.BinaryOp) };

    ghost node = { λ held. leaf.Word (binary_op_word held) };

    #[tactic(auto, using(swc_tree_node::proofs::Fit::fitting))]
    fn taken(closed: Node) -> BinaryOp {
        match closed {
            Node::Word(word) => BinaryOp::from_word(word),
            _ => unreachable!(),
        }
    }

    #[tactic(auto, using(swc_tree_node::proofs::Fit::fitting))]
    fn given(self, alloc: Global) -> Result<Node, AllocError> {
        Ok(Node::Word(self.word()))
    }
}
