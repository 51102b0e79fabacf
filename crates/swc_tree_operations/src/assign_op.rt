//! Printed by tools/print_table.py from tools/tree.txt.
ghost use Rattle.std.specs.Prelude.{◌≡◌, IsTrue};
ghost use Rattle.swc_tree_node.specs.declared.kind.WordClass.TheVariants as word_class;
ghost use Rattle.swc_tree_node.specs.declared.node.Node.TheVariants as leaf;
ghost use Rattle.swc_tree_node.specs.declared.slot.Slot.TheVariants.{One};
ghost use Rattle.swc_tree_node.specs.declared.slot.Content.TheVariants.{Word as Of};
ghost use Rattle.swc_tree_node.specs.Fits.{is_among};
ghost use Rattle.swc_tree_operations.specs.Nodes.{assign_op_word};

use std::alloc::{AllocError, Global};
use swc_tree_handle::Place;
use swc_tree_node::{Node, Word};

/// The operator of an assignment.
#[derive(Clone, Copy, Debug, PartialEq, Eq, Hash)]
pub enum AssignOp {
    Assign,
    AddAssign,
    SubAssign,
    MulAssign,
    DivAssign,
    ModAssign,
    LShiftAssign,
    RShiftAssign,
    ZeroFillRShiftAssign,
    BitOrAssign,
    BitXorAssign,
    BitAndAssign,
    ExpAssign,
    AndAssign,
    OrAssign,
    NullishAssign,
}

impl AssignOp {
    /// The word.
    pub fn word(self) -> Word
        ensures is { result ≡ assign_op_word self }
        ensures among { IsTrue (is_among result word_class.AssignOp) }
    {
        match self {
            AssignOp::Assign => Word::Assign,
            AssignOp::AddAssign => Word::AddAssign,
            AssignOp::SubAssign => Word::SubAssign,
            AssignOp::MulAssign => Word::MulAssign,
            AssignOp::DivAssign => Word::DivAssign,
            AssignOp::ModAssign => Word::ModAssign,
            AssignOp::LShiftAssign => Word::LShiftAssign,
            AssignOp::RShiftAssign => Word::RShiftAssign,
            AssignOp::ZeroFillRShiftAssign => Word::ZeroFillRShiftAssign,
            AssignOp::BitOrAssign => Word::BitOrAssign,
            AssignOp::BitXorAssign => Word::BitXorAssign,
            AssignOp::BitAndAssign => Word::BitAndAssign,
            AssignOp::ExpAssign => Word::ExpAssign,
            AssignOp::AndAssign => Word::AndAssign,
            AssignOp::OrAssign => Word::OrAssign,
            AssignOp::NullishAssign => Word::NullishAssign,
        }
    }

    /// What the word is here.
    pub fn from_word(word: Word) -> AssignOp
        requires { IsTrue (is_among word word_class.AssignOp) }
        ensures { assign_op_word result ≡ word }
    {
        match word {
            Word::Assign => AssignOp::Assign,
            Word::AddAssign => AssignOp::AddAssign,
            Word::SubAssign => AssignOp::SubAssign,
            Word::MulAssign => AssignOp::MulAssign,
            Word::DivAssign => AssignOp::DivAssign,
            Word::ModAssign => AssignOp::ModAssign,
            Word::LShiftAssign => AssignOp::LShiftAssign,
            Word::RShiftAssign => AssignOp::RShiftAssign,
            Word::ZeroFillRShiftAssign => AssignOp::ZeroFillRShiftAssign,
            Word::BitOrAssign => AssignOp::BitOrAssign,
            Word::BitXorAssign => AssignOp::BitXorAssign,
            Word::BitAndAssign => AssignOp::BitAndAssign,
            Word::ExpAssign => AssignOp::ExpAssign,
            Word::AndAssign => AssignOp::AndAssign,
            Word::OrAssign => AssignOp::OrAssign,
            Word::NullishAssign => AssignOp::NullishAssign,
            _ => unreachable!(),
        }
    }
}

impl Place for AssignOp {
    ghost slot = { One (Of word_class.AssignOp) };

    ghost node = { λ held. leaf.Word (assign_op_word held) };

    #[tactic(auto, using(swc_tree_node::proofs::Fit::fitting))]
    fn taken(closed: Node) -> AssignOp {
        match closed {
            Node::Word(word) => AssignOp::from_word(word),
            _ => unreachable!(),
        }
    }

    #[tactic(auto, using(swc_tree_node::proofs::Fit::fitting))]
    fn given(self, alloc: Global) -> Result<Node, AllocError> {
        Ok(Node::Word(self.word()))
    }
}
