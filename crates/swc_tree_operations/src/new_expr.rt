//! Printed by tools/print_table.py from tools/tree.txt.
ghost use Rattle.std.specs.Prelude.{◌≡◌, IfOk};
ghost use Rattle.swc_tree_node.specs.declared.kind.Class.TheVariants as class;
ghost use Rattle.swc_tree_node.specs.declared.slot.Slot.TheVariants.{One};
ghost use Rattle.swc_tree_node.specs.declared.slot.Content.TheVariants.{Node as Of};
ghost use Rattle.swc_tree_node.specs.Fits.{Fits};
ghost use Rattle.swc_tree_operations.specs.Nodes.{new_expr_node};

use std::alloc::{AllocError, Global};
use swc_tree_handle::{Opened, Tree, Trees, class, clone_three, close_three, open_three};
use swc_tree_marks::Span;
use swc_tree_node::{Kind, Node};

/// `new`, with arguments or without (ECMA-262, NewExpression).
#[derive(Debug, Drop, PartialEq, Eq)]
pub struct NewExpr {
    pub span: Span,
    pub callee: Tree<class::Expr>,
    pub args: Option<Trees<class::ExprOrSpread>>,
}

impl Clone for NewExpr {
    ghost is_clone = { λ it copy. copy ≡ it };

    fn clone(&self) -> Result<NewExpr, AllocError> {
        let (span, callee, args) = clone_three(&self.span, &self.callee, &self.args)?;
        Ok(NewExpr { span, callee, args })
    }
}

impl Opened<class::NewExpr> for NewExpr {
    ghost class = { class.NewExpr };

    ghost node = { new_expr_node };

    fn from_node(closed: Node) -> NewExpr
        requires { Fits closed (One (Of class.NewExpr)) }
        ensures { new_expr_node result ≡ closed }
    {
        let (span, callee, args) = open_three::<class::NewExpr, _, _, _>(closed, Kind::NewExpr);
        NewExpr { span, callee, args }
    }

    fn into_node(self, alloc: Global) -> Result<Node, AllocError>
        ensures { IfOk result (λ closed. (closed ≡ new_expr_node self) × Fits closed (One (Of class.NewExpr))) }
    {
        let NewExpr { span, callee, args } = self;
        close_three::<class::NewExpr, _, _, _>(alloc, Kind::NewExpr, (span, callee, args))
    }
}
