//! Printed by tools/print_table.py from tools/tree.txt.
ghost use Rattle.std.specs.Prelude.{◌≡◌, IfOk};
ghost use Rattle.swc_tree_node.specs.declared.kind.Class.TheVariants as class;
ghost use Rattle.swc_tree_node.specs.declared.slot.Slot.TheVariants.{One};
ghost use Rattle.swc_tree_node.specs.declared.slot.Content.TheVariants.{Node as Of};
ghost use Rattle.swc_tree_node.specs.Fits.{Fits};
ghost use Rattle.swc_tree_operations.specs.Nodes.{await_expr_node};

use std::alloc::{AllocError, Global};
use swc_tree_handle::{Opened, Tree, class, clone_two, close_two, open_two};
use swc_tree_marks::Span;
use swc_tree_node::{Kind, Node};

/// `await` (ECMA-262, AwaitExpression).
#[derive(Debug, Drop, PartialEq, Eq)]
pub struct AwaitExpr {
    pub span: Span,
    pub arg: Tree<class::Expr>,
}

impl Clone for AwaitExpr {
    ghost is_clone = { λ it copy. copy ≡ it };

    fn clone(&self) -> Result<AwaitExpr, AllocError> {
        let (span, arg) = clone_two(&self.span, &self.arg)?;
        Ok(AwaitExpr { span, arg })
    }
}

impl Opened<class::AwaitExpr> for AwaitExpr {
    ghost class = { class.AwaitExpr };

    ghost node = { await_expr_node };

    fn from_node(closed: Node) -> AwaitExpr
        requires { Fits closed (One (Of class.AwaitExpr)) }
        ensures { await_expr_node result ≡ closed }
    {
        let (span, arg) = open_two::<class::AwaitExpr, _, _>(closed, Kind::AwaitExpr);
        AwaitExpr { span, arg }
    }

    fn into_node(self, alloc: Global) -> Result<Node, AllocError>
        ensures { IfOk result (λ closed. (closed ≡ await_expr_node self) × Fits closed (One (Of class.AwaitExpr))) }
    {
        let AwaitExpr { span, arg } = self;
        close_two::<class::AwaitExpr, _, _>(alloc, Kind::AwaitExpr, (span, arg))
    }
}
