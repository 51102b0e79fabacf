//! Printed by tools/print_table.py from tools/tree.txt.
ghost use Rattle.std.specs.Prelude.{◌≡◌, IsTrue};
ghost use Rattle.swc_tree_node.specs.declared.kind.WordClass.TheVariants as word_class;
ghost use Rattle.swc_tree_node.specs.declared.node.Node.TheVariants as leaf;
ghost use Rattle.swc_tree_node.specs.declared.slot.Slot.TheVariants.{One};
ghost use Rattle.swc_tree_node.specs.declared.slot.Content.TheVariants.{Word as Of};
ghost use Rattle.swc_tree_node.specs.Fits.{is_among};
ghost use Rattle.swc_tree_operations.specs.Nodes.{update_op_word};

use std::alloc::{AllocError, Global};
use swc_tree_handle::Place;
use swc_tree_node::{Node, Word};

/// The operator of an update expression.
#[derive(Clone, Copy, Debug, PartialEq, Eq, Hash)]
pub enum UpdateOp {
    PlusPlus,
    MinusMinus,
}

impl UpdateOp {
    /// The word.
    pub fn word(self) -> Word
        ensures is { result ≡ update_op_word self }
        ensures among { IsTrue (is_among result word_class.UpdateOp) }
    {
        match self {
            UpdateOp::PlusPlus => Word::PlusPlus,
            UpdateOp::MinusMinus => Word::MinusMinus,
        }
    }

    /// What the word is here.
    pub fn from_word(word: Word) -> UpdateOp
        requires { IsTrue (is_among word word_class.UpdateOp) }
        ensures { update_op_word result ≡ word }
    {
        match word {
            Word::PlusPlus => UpdateOp::PlusPlus,
            Word::MinusMinus => UpdateOp::MinusMinus,
            _ => unreachable!(),
        }
    }
}

impl Place for UpdateOp {
    ghost slot = { One (Of word_class.UpdateOp) };

    ghost node = { λ held. leaf.Word (update_op_word held) };

    #[tactic(auto, using(swc_tree_node::proofs::Fit::fitting))]
    fn taken(closed: Node) -> UpdateOp {
        match closed {
            Node::Word(word) => UpdateOp::from_word(word),
            _ => unreachable!(),
        }
    }

    #[tactic(auto, using(swc_tree_node::proofs::Fit::fitting))]
    fn given(self, alloc: Global) -> Result<Node, AllocError> {
        Ok(Node::Word(self.word()))
    }
}
