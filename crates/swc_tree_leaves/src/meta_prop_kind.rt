//! Printed by tools/print_table.py from tools/tree.txt.
ghost use Rattle.std.specs.Prelude.{◌≡◌, IsTrue};
ghost use Rattle.swc_tree_node.specs.declared.kind.WordClass.TheVariants as word_class;
ghost use Rattle.swc_tree_node.specs.declared.node.Node.TheVariants as leaf;
ghost use Rattle.swc_tree_node.specs.declared.slot.Slot.TheVariants.{One};
ghost use Rattle.swc_tree_node.specs.declared.slot.Content.TheVariants.{Word as Of};
ghost use Rattle.swc_tree_node.specs.Fits.{is_among};
ghost use Rattle.swc_tree_leaves.specs.Nodes.{meta_prop_kind_word};

use std::alloc::{AllocError, Global};
use swc_tree_handle::Place;
use swc_tree_node::{Node, Word};

/// What a meta property is.
#[derive(Clone, Copy, Debug, PartialEq, Eq, Hash)]
pub enum MetaPropKind {
    NewTarget,
    ImportMeta,
}

impl MetaPropKind {
    /// The word.
    pub fn word(self) -> Word
        ensures is { result ≡ meta_prop_kind_word self }
        ensures among { IsTrue (is_among result word_class.MetaPropKind) }
    {
        match self {
            MetaPropKind::NewTarget => Word::NewTarget,
            MetaPropKind::ImportMeta => Word::ImportMeta,
        }
    }

    /// What the word is here.
    pub fn from_word(word: Word) -> MetaPropKind
        requires { IsTrue (is_among word word_class.MetaPropKind) }
        ensures { meta_prop_kind_word result ≡ word }
    {
        match word {
            Word::NewTarget => MetaPropKind::NewTarget,
            Word::ImportMeta => MetaPropKind::ImportMeta,
            _ => unreachable!(),
        }
    }
}

impl Place for MetaPropKind {
    ghost slot = { One (Of word_class.MetaPropKind) };

    ghost node = { λ held. leaf.Word (meta_prop_kind_word held) };

    #[tactic(auto, using(swc_tree_node::proofs::Fit::fitting))]
    fn taken(closed: Node) -> MetaPropKind {
        match closed {
            Node::Word(word) => MetaPropKind::from_word(word),
            _ => unreachable!(),
        }
    }

    #[tactic(auto, using(swc_tree_node::proofs::Fit::fitting))]
    fn given(self, alloc: Global) -> Result<Node, AllocError> {
        Ok(Node::Word(self.word()))
    }
}
