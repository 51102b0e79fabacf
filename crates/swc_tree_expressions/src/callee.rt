//! Printed by tools/print_table.py from tools/tree.txt.
ghost use Rattle.std.specs.Prelude.{◌≡◌, IfOk};
ghost use Rattle.swc_tree_node.specs.declared.kind.Class.TheVariants as class;
ghost use Rattle.swc_tree_node.specs.declared.slot.Slot.TheVariants.{One};
ghost use Rattle.swc_tree_node.specs.declared.slot.Content.TheVariants.{Node as Of};
ghost use Rattle.swc_tree_node.specs.Fits.{Fits};
ghost use Rattle.swc_tree_expressions.specs.Nodes.{of_callee};

use std::alloc::{AllocError, Global};
use swc_tree_handle::{Opened, Tree, class};
use swc_tree_leaves::{Import, Super};
use swc_tree_node::{Kind, Node};

/// What is called.
#[derive(Clone, Debug, Drop, PartialEq, Eq)]
pub enum Callee {
    Super(Super),
    Import(Import),
    Expr(Tree<class::Expr>),
}

impl Opened<class::Callee> for Callee {
    ghost class = { class.Callee };

    ghost node = { of_callee };

    fn from_node(closed: Node) -> Callee
        requires { Fits closed (One (Of class.Callee)) }
        ensures { of_callee result ≡ closed }
    {
        let tree = Tree::<class::Callee>::from_node(closed);
        match tree.kind() {
            Kind::Super => Callee::Super(tree.narrow::<class::Super>().open()),
            Kind::Import => Callee::Import(tree.narrow::<class::Import>().open()),
            _ => Callee::Expr(tree.narrow()),
        }
    }

    fn into_node(self, alloc: Global) -> Result<Node, AllocError>
        ensures { IfOk result (λ closed. (closed ≡ of_callee self) × Fits closed (One (Of class.Callee))) }
    {
        match self {
            Callee::Super(opened) => opened.close_within::<class::Callee>(alloc),
            Callee::Import(opened) => opened.close_within::<class::Callee>(alloc),
            Callee::Expr(tree) => Ok(tree.widen::<class::Callee>().into_node()),
        }
    }
}
