//! Printed by tools/print_table.py from tools/tree.txt.
ghost use Rattle.std.specs.Prelude.{◌≡◌, IsTrue};
ghost use Rattle.swc_tree_node.specs.declared.kind.WordClass.TheVariants as word_class;
ghost use Rattle.swc_tree_node.specs.declared.node.Node.TheVariants as leaf;
ghost use Rattle.swc_tree_node.specs.declared.slot.Slot.TheVariants.{One};
ghost use Rattle.swc_tree_node.specs.declared.slot.Content.TheVariants.{Word as Of};
ghost use Rattle.swc_tree_node.specs.Fits.{is_among};
ghost use Rattle.swc_tree_operations.specs.Nodes.{unary_op_word};

use std::alloc::{AllocError, Global};
use swc_tree_handle::Place;
use swc_tree_node::{Node, Word};

/// The operator of a unary expression.
#[derive(Clone, Copy, Debug, PartialEq, Eq, Hash)]
pub enum UnaryOp {
    Minus,
    Plus,
    Bang,
    Tilde,
    TypeOf,
    Void,
    Delete,
}

impl UnaryOp {
    /// The word.
    pub fn word(self) -> Word
        ensures is { result ≡ unary_op_word self }
        ensures among { IsTrue (is_among result word_class.UnaryOp) }
    {
        match self {
            UnaryOp::Minus => Word::Minus,
            UnaryOp::Plus => Word::Plus,
            UnaryOp::Bang => Word::Bang,
            UnaryOp::Tilde => Word::Tilde,
            UnaryOp::TypeOf => Word::TypeOf,
            UnaryOp::Void => Word::Void,
            UnaryOp::Delete => Word::Delete,
        }
    }

    /// What the word is here.
    pub fn from_word(word: Word) -> UnaryOp
        requires { IsTrue (is_among word word_class.UnaryOp) }
        ensures { unary_op_word result ≡ word }
    {
        match word {
            Word::Minus => UnaryOp::Minus,
            Word::Plus => UnaryOp::Plus,
            Word::Bang => UnaryOp::Bang,
            Word::Tilde => UnaryOp::Tilde,
            Word::TypeOf => UnaryOp::TypeOf,
            Word::Void => UnaryOp::Void,
            Word::Delete => UnaryOp::Delete,
            _ => unreachable!(),
        }
    }
}

impl Place for UnaryOp {
    ghost slot = { One (Of word_class.UnaryOp) };

    ghost node = { λ held. leaf.Word (unary_op_word held) };

    #[tactic(auto, using(swc_tree_node::proofs::Fit::fitting))]
    fn taken(closed: Node) -> UnaryOp {
        match closed {
            Node::Word(word) => UnaryOp::from_word(word),
            _ => unreachable!(),
        }
    }

    #[tactic(auto, using(swc_tree_node::proofs::Fit::fitting))]
    fn given(self, alloc: Global) -> Result<Node, AllocError> {
        Ok(Node::Word(self.word()))
    }
}
