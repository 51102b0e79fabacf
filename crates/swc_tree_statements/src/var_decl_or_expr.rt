//! Printed by tools/print_table.py from tools/tree.txt.
ghost use Rattle.std.specs.Prelude.{◌≡◌, IfOk};
ghost use Rattle.swc_tree_node.specs.declared.kind.Class.TheVariants as class;
ghost use Rattle.swc_tree_node.specs.declared.slot.Slot.TheVariants.{One};
ghost use Rattle.swc_tree_node.specs.declared.slot.Content.TheVariants.{Node as Of};
ghost use Rattle.swc_tree_node.specs.Fits.{Fits};
ghost use Rattle.swc_tree_statements.specs.Nodes.{of_var_decl_or_expr};

use crate::var_decl::VarDecl;
use std::alloc::{AllocError, Global};
use swc_tree_handle::{Opened, Tree, class};
use swc_tree_node::{Kind, Node};

/// What a `for` statement begins with.
#[derive(Clone, Debug, Drop, PartialEq, Eq)]
pub enum VarDeclOrExpr {
    VarDecl(VarDecl),
    Expr(Tree<class::Expr>),
}

impl Opened<class::VarDeclOrExpr> for VarDeclOrExpr {
    ghost class = { class.VarDeclOrExpr };

    ghost node = { of_var_decl_or_expr };

    fn from_node(closed: Node) -> VarDeclOrExpr
        requires { Fits closed (One (Of class.VarDeclOrExpr)) }
        ensures { of_var_decl_or_expr result ≡ closed }
    {
        let tree = Tree::<class::VarDeclOrExpr>::from_node(closed);
        match tree.kind() {
            Kind::VarDecl => VarDeclOrExpr::VarDecl(tree.narrow::<class::VarDecl>().open()),
            _ => VarDeclOrExpr::Expr(tree.narrow()),
        }
    }

    fn into_node(self, alloc: Global) -> Result<Node, AllocError>
        ensures { IfOk result (λ closed. (closed ≡ of_var_decl_or_expr self) × Fits closed (One (Of class.VarDeclOrExpr))) }
    {
        match self {
            VarDeclOrExpr::VarDecl(opened) => opened.close_within::<class::VarDeclOrExpr>(alloc),
            VarDeclOrExpr::Expr(tree) => Ok(tree.widen::<class::VarDeclOrExpr>().into_node()),
        }
    }
}
