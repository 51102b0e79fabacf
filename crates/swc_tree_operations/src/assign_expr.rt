//! Printed by tools/print_table.py from tools/tree.txt.
ghost use Rattle.std.specs.Prelude.{◌≡◌, IfOk};
ghost use Rattle.swc_tree_node.specs.declared.kind.Class.TheVariants as class;
ghost use Rattle.swc_tree_node.specs.declared.slot.Slot.TheVariants.{One};
ghost use Rattle.swc_tree_node.specs.declared.slot.Content.TheVariants.{Node as Of};
ghost use Rattle.swc_tree_node.specs.Fits.{Fits};
ghost use Rattle.swc_tree_operations.specs.Nodes.{assign_expr_node};

use crate::assign_op::AssignOp;
use std::alloc::{AllocError, Global};
use swc_tree_handle::{Opened, Tree, class, clone_four, close_four, open_four};
use swc_tree_marks::Span;
use swc_tree_node::{Kind, Node};

/// An assignment (ECMA-262, AssignmentExpression).
#[derive(Debug, Drop, PartialEq, Eq)]
pub struct AssignExpr {
    pub span: Span,
    pub op: AssignOp,
    pub left: Tree<class::AssignTarget>,
    pub right: Tree<class::Expr>,
}

impl Clone for AssignExpr {
    ghost is_clone = { λ it copy. copy ≡ it };

    fn clone(&self) -> Result<AssignExpr, AllocError> {
        let (span, op, left, right) = clone_four(&self.span, &self.op, &self.left, &self.right)?;
        Ok(AssignExpr {
            span,
            op,
            left,
            right,
        })
    }
}

impl Opened<class::AssignExpr> for AssignExpr {
    ghost class = { class.AssignExpr };

    ghost node = { assign_expr_node };

    fn from_node(closed: Node) -> AssignExpr
        requires { Fits closed (One (Of class.AssignExpr)) }
        ensures { assign_expr_node result ≡ closed }
    {
        let (span, op, left, right) = open_four::<class::AssignExpr, _, _, _, _>(
            closed,
            Kind::AssignExpr,
        );
        AssignExpr {
            span,
            op,
            left,
            right,
        }
    }

    fn into_node(self, alloc: Global) -> Result<Node, AllocError>
        ensures { IfOk result (λ closed. (closed ≡ assign_expr_node self) × Fits closed (One (Of class.AssignExpr))) }
    {
        let AssignExpr {
            span,
            op,
            left,
            right,
        } = self;
        close_four::<class::AssignExpr, _, _, _, _>(
            alloc,
            Kind::AssignExpr,
            (span, op, left, right),
        )
    }
}
