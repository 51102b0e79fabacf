//! Printed by tools/print_table.py from tools/tree.txt.
ghost use Rattle.std.specs.Prelude.{◌≡◌, IfOk};
ghost use Rattle.swc_tree_node.specs.declared.kind.Class.TheVariants as class;
ghost use Rattle.swc_tree_node.specs.declared.slot.Slot.TheVariants.{One};
ghost use Rattle.swc_tree_node.specs.declared.slot.Content.TheVariants.{Node as Of};
ghost use Rattle.swc_tree_node.specs.Fits.{Fits};
ghost use Rattle.swc_tree_modules.specs.Nodes.{export_default_expr_node};

use std::alloc::{AllocError, Global};
use swc_tree_handle::{Opened, Tree, class, clone_two, close_two, open_two};
use swc_tree_marks::Span;
use swc_tree_node::{Kind, Node};

/// An expression as the default export (ECMA-262, ExportDeclaration).
#[derive(Debug, Drop, PartialEq, Eq)]
pub struct ExportDefaultExpr {
    pub span: Span,
    pub expr: Tree<class::Expr>,
}

impl Clone for ExportDefaultExpr {
    ghost is_clone = { λ it copy. copy ≡ it };

    fn clone(&self) -> Result<ExportDefaultExpr, AllocError> {
        let (span, expr) = clone_two(&self.span, &self.expr)?;
        Ok(ExportDefaultExpr { span, expr })
    }
}

impl Opened<class::ExportDefaultExpr> for ExportDefaultExpr {
    ghost class = { class.ExportDefaultExpr };

    ghost node = { export_default_expr_node };

    fn from_node(closed: Node) -> ExportDefaultExpr
        requires { Fits closed (One (Of class.ExportDefaultExpr)) }
        ensures { export_default_expr_node result ≡ closed }
    {
        let (span, expr) = open_two::<class::ExportDefaultExpr, _, _>(
            closed,
            Kind::ExportDefaultExpr,
        );
        ExportDefaultExpr { span, expr }
    }

    fn into_node(self, alloc: Global) -> Result<Node, AllocError>
        ensures { IfOk result (λ closed. (closed ≡ export_default_expr_node self) × Fits closed (One (Of class.ExportDefaultExpr))) }
    {
        let ExportDefaultExpr { span, expr } = self;
        close_two::<class::ExportDefaultExpr, _, _>(alloc, Kind::ExportDefaultExpr, (span, expr))
    }
}
