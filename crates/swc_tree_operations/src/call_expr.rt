//! Printed by tools/print_table.py from tools/tree.txt.
ghost use Rattle.std.specs.Prelude.{◌≡◌, IfOk};
ghost use Rattle.swc_tree_node.specs.declared.kind.Class.TheVariants as class;
ghost use Rattle.swc_tree_node.specs.declared.slot.Slot.TheVariants.{One};
ghost use Rattle.swc_tree_node.specs.declared.slot.Content.TheVariants.{Node as Of};
ghost use Rattle.swc_tree_node.specs.Fits.{Fits};
ghost use Rattle.swc_tree_operations.specs.Nodes.{call_expr_node};

use std::alloc::{AllocError, Global};
use swc_tree_handle::{Opened, Tree, Trees, class, clone_three, close_three, open_three};
use swc_tree_marks::Span;
use swc_tree_node::{Kind, Node};

/// A call (ECMA-262, CallExpression).
#[derive(Debug, Drop, PartialEq, Eq)]
pub struct CallExpr {
    pub span: Span,
    pub callee: Tree<class::Callee>,
    pub args: Trees<class::ExprOrSpread>,
}

impl Clone for CallExpr {
    ghost is_clone = { λ it copy. copy ≡ it };

    fn clone(&self) -> Result<CallExpr, AllocError> {
        let (span, callee, args) = clone_three(&self.span, &self.callee, &self.args)?;
        Ok(CallExpr { span, callee, args })
    }
}

impl Opened<class::CallExpr> for CallExpr {
    ghost class = { class.CallExpr };

    ghost node = { call_expr_node };

    fn from_node(closed: Node) -> CallExpr
        requires { Fits closed (One (Of class.CallExpr)) }
        ensures { call_expr_node result ≡ closed }
    {
        let (span, callee, args) = open_three::<class::CallExpr, _, _, _>(closed, Kind::CallExpr);
        CallExpr { span, callee, args }
    }

    fn into_node(self, alloc: Global) -> Result<Node, AllocError>
        ensures { IfOk result (λ closed. (closed ≡ call_expr_node self) × Fits closed (One (Of class.CallExpr))) }
    {
        let CallExpr { span, callee, args } = self;
        close_three::<class::CallExpr, _, _, _>(alloc, Kind::CallExpr, (span, callee, args))
    }
}
