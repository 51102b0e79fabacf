//! Printed by tools/print_table.py from tools/tree.txt.
ghost use Rattle.std.specs.Prelude.{◌≡◌, IfOk};
ghost use Rattle.swc_tree_node.specs.declared.kind.Class.TheVariants as class;
ghost use Rattle.swc_tree_node.specs.declared.slot.Slot.TheVariants.{One};
ghost use Rattle.swc_tree_node.specs.declared.slot.Content.TheVariants.{Node as Of};
ghost use Rattle.swc_tree_node.specs.Fits.{Fits};
ghost use Rattle.swc_tree_operations.specs.Nodes.{bin_expr_node};

use crate::binary_op::BinaryOp;
use std::alloc::{AllocError, Global};
use swc_tree_handle::{Opened, Tree, class, clone_four, close_four, open_four};
use swc_tree_marks::Span;
use swc_tree_node::{Kind, Node};

/// Two operands and the operator between them (ECMA-262, 13.6 to 13.13).
#[derive(Debug, Drop, PartialEq, Eq)]
pub struct BinExpr {
    pub span: Span,
    pub op: BinaryOp,
    pub left: Tree<class::Expr>,
    pub right: Tree<class::Expr>,
}

impl Clone for BinExpr {
    ghost is_clone = { λ it copy. copy ≡ it };

    fn clone(&self) -> Result<BinExpr, AllocError> {
        let (span, op, left, right) = clone_four(&self.span, &self.op, &self.left, &self.right)?;
        Ok(BinExpr {
            span,
            op,
            left,
            right,
        })
    }
}

impl Opened<class::BinExpr> for BinExpr {
    ghost class = { class.BinExpr };

    ghost node = { bin_expr_node };

    fn from_node(closed: Node) -> BinExpr
        requires { Fits closed (One (Of class.BinExpr)) }
        ensures { bin_expr_node result ≡ closed }
    {
        let (span, op, left, right) = open_four::<class::BinExpr, _, _, _, _>(
            closed,
            Kind::BinExpr,
        );
        BinExpr {
            span,
            op,
            left,
            right,
        }
    }

    fn into_node(self, alloc: Global) -> Result<Node, AllocError>
        ensures { IfOk result (λ closed. (closed ≡ bin_expr_node self) × Fits closed (One (Of class.BinExpr))) }
    {
        let BinExpr {
            span,
            op,
            left,
            right,
        } = self;
        close_four::<class::BinExpr, _, _, _, _>(alloc, Kind::BinExpr, (span, op, left, right))
    }
}
