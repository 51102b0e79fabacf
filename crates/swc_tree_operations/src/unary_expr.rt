//! Printed by tools/print_table.py from tools/tree.txt.
ghost use Rattle.std.specs.Prelude.{◌≡◌, IfOk};
ghost use Rattle.swc_tree_node.specs.declared.kind.Class.TheVariants as class;
ghost use Rattle.swc_tree_node.specs.declared.slot.Slot.TheVariants.{One};
ghost use Rattle.swc_tree_node.specs.declared.slot.Content.TheVariants.{Node as Of};
ghost use Rattle.swc_tree_node.specs.Fits.{Fits};
ghost use Rattle.swc_tree_operations.specs.Nodes.{unary_expr_node};

use crate::unary_op::UnaryOp;
use std::alloc::{AllocError, Global};
use swc_tree_handle::{Opened, Tree, class, clone_three, close_three, open_three};
use swc_tree_marks::Span;
use swc_tree_node::{Kind, Node};

/// An operator before its operand (ECMA-262, UnaryExpression).
#[derive(Debug, Drop, PartialEq, Eq)]
pub struct UnaryExpr {
    pub span: Span,
    pub op: UnaryOp,
    pub arg: Tree<class::Expr>,
}

impl Clone for UnaryExpr {
    ghost is_clone = { λ it copy. copy ≡ it };

    fn clone(&self) -> Result<UnaryExpr, AllocError> {
        let (span, op, arg) = clone_three(&self.span, &self.op, &self.arg)?;
        Ok(UnaryExpr { span, op, arg })
    }
}

impl Opened<class::UnaryExpr> for UnaryExpr {
    ghost class = { class.UnaryExpr };

    ghost node = { unary_expr_node };

    fn from_node(closed: Node) -> UnaryExpr
        requires { Fits closed (One (Of class.UnaryExpr)) }
        ensures { unary_expr_node result ≡ closed }
    {
        let (span, op, arg) = open_three::<class::UnaryExpr, _, _, _>(closed, Kind::UnaryExpr);
        UnaryExpr { span, op, arg }
    }

    fn into_node(self, alloc: Global) -> Result<Node, AllocError>
        ensures { IfOk result (λ closed. (closed ≡ unary_expr_node self) × Fits closed (One (Of class.UnaryExpr))) }
    {
        let UnaryExpr { span, op, arg } = self;
        close_three::<class::UnaryExpr, _, _, _>(alloc, Kind::UnaryExpr, (span, op, arg))
    }
}
