//! Printed by tools/print_table.py from tools/tree.txt.
ghost use Rattle.std.specs.Prelude.{◌≡◌, IsTrue};
ghost use Rattle.swc_tree_node.specs.declared.kind.WordClass.TheVariants as word_class;
ghost use Rattle.swc_tree_node.specs.declared.node.Node.TheVariants as leaf;
ghost use Rattle.swc_tree_node.specs.declared.slot.Slot.TheVariants.{One};
ghost use Rattle.swc_tree_node.specs.declared.slot.Content.TheVariants.{Word as Of};
ghost use Rattle.swc_tree_node.specs.Fits.{is_among};
ghost use Rattle.swc_tree_functions.specs.Nodes.{method_kind_word};

use std::alloc::{AllocError, Global};
use swc_tree_handle::Place;
use swc_tree_node::{Node, Word};

/// What a method of a class is.
#[derive(Clone, Copy, Debug, PartialEq, Eq, Hash)]
pub enum MethodKind {
    Method,
    Getter,
    Setter,
}

impl MethodKind {
    /// The word.
    pub fn word(self) -> Word
        ensures is { result ≡ method_kind_word self }
        ensures among { IsTrue (is_among result word_class.MethodKind) }
    {
        match self {
            MethodKind::Method => Word::Method,
            MethodKind::Getter => Word::Getter,
            MethodKind::Setter => Word::Setter,
        }
    }

    /// What the word is here.
    pub fn from_word(word: Word) -> MethodKind
        requires { IsTrue (is_among word word_class.MethodKind) }
        ensures { method_kind_word result ≡ word }
    {
        match word {
            Word::Method => MethodKind::Method,
            Word::Getter => MethodKind::Getter,
            Word::Setter => MethodKind::Setter,
            _ => unreachable!(),
        }
    }
}

impl Place for MethodKind {
    ghost slot = { One (Of word_class.MethodKind) };

    ghost node = { λ held. leaf.Word (method_kind_word held) };

    #[tactic(auto, using(swc_tree_node::proofs::Fit::fitting))]
    fn taken(closed: Node) -> MethodKind {
        match closed {
            Node::Word(word) => MethodKind::from_word(word),
            _ => unreachable!(),
        }
    }

    #[tactic(auto, using(swc_tree_node::proofs::Fit::fitting))]
    fn given(self, alloc: Global) -> Result<Node, AllocError> {
        Ok(Node::Word(self.word()))
    }
}
