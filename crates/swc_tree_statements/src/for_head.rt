//! Printed by tools/print_table.py from tools/tree.txt.
ghost use Rattle.std.specs.Prelude.{◌≡◌, IfOk};
ghost use Rattle.swc_tree_node.specs.declared.kind.Class.TheVariants as class;
ghost use Rattle.swc_tree_node.specs.declared.slot.Slot.TheVariants.{One};
ghost use Rattle.swc_tree_node.specs.declared.slot.Content.TheVariants.{Node as Of};
ghost use Rattle.swc_tree_node.specs.Fits.{Fits};
ghost use Rattle.swc_tree_statements.specs.Nodes.{of_for_head};

use crate::using_decl::UsingDecl;
use crate::var_decl::VarDecl;
use std::alloc::{AllocError, Global};
use swc_tree_handle::{Opened, Tree, class};
use swc_tree_node::{Kind, Node};
use swc_tree_patterns::Pat;

/// What a `for` statement assigns to or declares (ECMA-262, ForDeclaration).
#[derive(Clone, Debug, Drop, PartialEq, Eq)]
pub enum ForHead {
    VarDecl(VarDecl),
    UsingDecl(UsingDecl),
    Pat(Pat),
}

impl Opened<class::ForHead> for ForHead {
    ghost class = { class.ForHead };

    ghost node = { of_for_head };

    fn from_node(closed: Node) -> ForHead
        requires { Fits closed (One (Of class.ForHead)) }
        ensures { of_for_head result ≡ closed }
    {
        let tree = Tree::<class::ForHead>::from_node(closed);
        match tree.kind() {
            Kind::VarDecl => ForHead::VarDecl(tree.narrow::<class::VarDecl>().open()),
            Kind::UsingDecl => ForHead::UsingDecl(tree.narrow::<class::UsingDecl>().open()),
            _ => ForHead::Pat(tree.narrow::<class::Pat>().open()),
        }
    }

    fn into_node(self, alloc: Global) -> Result<Node, AllocError>
        ensures { IfOk result (λ closed. (closed ≡ of_for_head self) × Fits closed (One (Of class.ForHead))) }
    {
        match self {
            ForHead::VarDecl(opened) => opened.close_within::<class::ForHead>(alloc),
            ForHead::UsingDecl(opened) => opened.close_within::<class::ForHead>(alloc),
            ForHead::Pat(opened) => opened.close_within::<class::ForHead>(alloc),
        }
    }
}
