//! Printed by tools/print_table.py from tools/tree.txt.
ghost use Rattle.std.specs.Prelude.{◌≡◌, IfOk};
ghost use Rattle.swc_tree_node.specs.declared.kind.Class.TheVariants as class;
ghost use Rattle.swc_tree_node.specs.declared.slot.Slot.TheVariants.{One};
ghost use Rattle.swc_tree_node.specs.declared.slot.Content.TheVariants.{Node as Of};
ghost use Rattle.swc_tree_node.specs.Fits.{Fits};
ghost use Rattle.swc_tree_functions.specs.Nodes.{fn_expr_node};

use std::alloc::{AllocError, Global};
use swc_tree_handle::{Opened, Tree, class, clone_two, close_two, open_two};
use swc_tree_marks::Ident;
use swc_tree_node::{Kind, Node};

/// A function expression (ECMA-262, FunctionExpression).
#[derive(Debug, Drop, PartialEq, Eq)]
pub struct FnExpr {
    pub ident: Option<Ident>,
    pub function: Tree<class::Function>,
}

impl Clone for FnExpr {
    ghost is_clone = { λ it copy. copy ≡ it };

    fn clone(&self) -> Result<FnExpr, AllocError> {
        let (ident, function) = clone_two(&self.ident, &self.function)?;
        Ok(FnExpr { ident, function })
    }
}

impl Opened<class::FnExpr> for FnExpr {
    ghost class = { class.FnExpr };

    ghost node = { fn_expr_node };

    fn from_node(closed: Node) -> FnExpr
        requires { Fits closed (One (Of class.FnExpr)) }
        ensures { fn_expr_node result ≡ closed }
    {
        let (ident, function) = open_two::<class::FnExpr, _, _>(closed, Kind::FnExpr);
        FnExpr { ident, function }
    }

    fn into_node(self, alloc: Global) -> Result<Node, AllocError>
        ensures { IfOk result (λ closed. (closed ≡ fn_expr_node self) × Fits closed (One (Of class.FnExpr))) }
    {
        let FnExpr { ident, function } = self;
        close_two::<class::FnExpr, _, _>(alloc, Kind::FnExpr, (ident, function))
    }
}
