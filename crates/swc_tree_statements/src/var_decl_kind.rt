//! Printed by tools/print_table.py from tools/tree.txt.
ghost use Rattle.std.specs.Prelude.{◌≡◌, IsTrue};
ghost use Rattle.swc_tree_node.specs.declared.kind.WordClass.TheVariants as word_class;
ghost use Rattle.swc_tree_node.specs.declared.node.Node.TheVariants as leaf;
ghost use Rattle.swc_tree_node.specs.declared.slot.Slot.TheVariants.{One};
ghost use Rattle.swc_tree_node.specs.declared.slot.Content.TheVariants.{Word as Of};
ghost use Rattle.swc_tree_node.specs.Fits.{is_among};
ghost use Rattle.swc_tree_statements.specs.Nodes.{var_decl_kind_word};

use std::alloc::{AllocError, Global};
use swc_tree_handle::Place;
use swc_tree_node::{Node, Word};

/// The keyword of a declaration.
#[derive(Clone, Copy, Debug, PartialEq, Eq, Hash)]
pub enum VarDeclKind {
    Var,
    Let,
    Const,
}

impl VarDeclKind {
    /// The word.
    pub fn word(self) -> Word
        ensures is { result ≡ var_decl_kind_word self }
        ensures among { IsTrue (is_among result word_class.VarDeclKind) }
    {
        match self {
            VarDeclKind::Var => Word::Var,
            VarDeclKind::Let => Word::Let,
            VarDeclKind::Const => Word::Const,
        }
    }

    /// What the word is here.
    pub fn from_word(word: Word) -> VarDeclKind
        requires { IsTrue (is_among word word_class.VarDeclKind) }
        ensures { var_decl_kind_word result ≡ word }
    {
        match word {
            Word::Var => VarDeclKind::Var,
            Word::Let => VarDeclKind::Let,
            Word::Const => VarDeclKind::Const,
            _ => unreachable!(),
        }
    }
}

impl Place for VarDeclKind {
    ghost slot = { One (Of word_class.VarDeclKind) };

    ghost node = { λ held. leaf.Word (var_decl_kind_word held) };

    #[tactic(auto, using(swc_tree_node::proofs::Fit::fitting))]
    fn taken(closed: Node) -> VarDeclKind {
        match closed {
            Node::Word(word) => VarDeclKind::from_word(word),
            _ => unreachable!(),
        }
    }

    #[tactic(auto, using(swc_tree_node::proofs::Fit::fitting))]
    fn given(self, alloc: Global) -> Result<Node, AllocError> {
        Ok(Node::Word(self.word()))
    }
}
