//! Printed by tools/print_table.py from tools/tree.txt.
ghost use Rattle.std.specs.Prelude.{◌≡◌, IfOk};
ghost use Rattle.swc_tree_node.specs.declared.kind.Class.TheVariants as class;
ghost use Rattle.swc_tree_node.specs.declared.slot.Slot.TheVariants.{One};
ghost use Rattle.swc_tree_node.specs.declared.slot.Content.TheVariants.{Node as Of};
ghost use Rattle.swc_tree_node.specs.Fits.{Fits};
ghost use Rattle.swc_tree_operations.specs.Nodes.{paren_expr_node};

use std::alloc::{AllocError, Global};
use swc_tree_handle::{Opened, Tree, class, clone_two, close_two, open_two};
use swc_tree_marks::Span;
use swc_tree_node::{Kind, Node};

/// An expression in parentheses (ECMA-262, ParenthesizedExpression).
#[derive(Debug, Drop, PartialEq, Eq)]
pub struct ParenExpr {
    pub span: Span,
    pub expr: Tree<class::Expr>,
}

impl Clone for ParenExpr {
    ghost is_clone = { λ it copy. copy ≡ it };

    fn clone(&self) -> Result<ParenExpr, AllocError> {
        let (span, expr) = clone_two(&self.span, &self.expr)?;
        Ok(ParenExpr { span, expr })
    }
}

impl Opened<class::ParenExpr> for ParenExpr {
    ghost class = { class.ParenExpr };

    ghost node = { paren_expr_node };

    fn from_node(closed: Node) -> ParenExpr
        requires { Fits closed (One (Of class.ParenExpr)) }
        ensures { paren_expr_node result ≡ closed }
    {
        let (span, expr) = open_two::<class::ParenExpr, _, _>(closed, Kind::ParenExpr);
        ParenExpr { span, expr }
    }

    fn into_node(self, alloc: Global) -> Result<Node, AllocError>
        ensures { IfOk result (λ closed. (closed ≡ paren_expr_node self) × Fits closed (One (Of class.ParenExpr))) }
    {
        let ParenExpr { span, expr } = self;
        close_two::<class::ParenExpr, _, _>(alloc, Kind::ParenExpr, (span, expr))
    }
}
