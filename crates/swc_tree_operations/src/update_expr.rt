//! Printed by tools/print_table.py from tools/tree.txt.
ghost use Rattle.std.specs.Prelude.{◌≡◌, IfOk};
ghost use Rattle.swc_tree_node.specs.declared.kind.Class.TheVariants as class;
ghost use Rattle.swc_tree_node.specs.declared.slot.Slot.TheVariants.{One};
ghost use Rattle.swc_tree_node.specs.declared.slot.Content.TheVariants.{Node as Of};
ghost use Rattle.swc_tree_node.specs.Fits.{Fits};
ghost use Rattle.swc_tree_operations.specs.Nodes.{update_expr_node};

use crate::update_op::UpdateOp;
use std::alloc::{AllocError, Global};
use swc_tree_handle::{Opened, Tree, class, clone_four, close_four, open_four};
use swc_tree_marks::Span;
use swc_tree_node::{Kind, Node};

/// An increment or decrement, before its operand or after it (ECMA-262, UpdateExpression).
#[derive(Debug, Drop, PartialEq, Eq)]
pub struct UpdateExpr {
    pub span: Span,
    pub op: UpdateOp,
    pub prefix: bool,
    pub arg: Tree<class::Expr>,
}

impl Clone for UpdateExpr {
    ghost is_clone = { λ it copy. copy ≡ it };

    fn clone(&self) -> Result<UpdateExpr, AllocError> {
        let (span, op, prefix, arg) = clone_four(&self.span, &self.op, &self.prefix, &self.arg)?;
        Ok(UpdateExpr {
            span,
            op,
            prefix,
            arg,
        })
    }
}

impl Opened<class::UpdateExpr> for UpdateExpr {
    ghost class = { class.UpdateExpr };

    ghost node = { update_expr_node };

    fn from_node(closed: Node) -> UpdateExpr
        requires { Fits closed (One (Of class.UpdateExpr)) }
        ensures { update_expr_node result ≡ closed }
    {
        let (span, op, prefix, arg) = open_four::<class::UpdateExpr, _, _, _, _>(
            closed,
            Kind::UpdateExpr,
        );
        UpdateExpr {
            span,
            op,
            prefix,
            arg,
        }
    }

    fn into_node(self, alloc: Global) -> Result<Node, AllocError>
        ensures { IfOk result (λ closed. (closed ≡ update_expr_node self) × Fits closed (One (Of class.UpdateExpr))) }
    {
        let UpdateExpr {
            span,
            op,
            prefix,
            arg,
        } = self;
        close_four::<class::UpdateExpr, _, _, _, _>(
            alloc,
            Kind::UpdateExpr,
            (span, op, prefix, arg),
        )
    }
}
