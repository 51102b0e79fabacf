//! Printed by tools/print_table.py from tools/tree.txt.
ghost use Rattle.std.specs.Prelude.{◌≡◌, IfOk};
ghost use Rattle.swc_tree_node.specs.declared.kind.Class.TheVariants as class;
ghost use Rattle.swc_tree_node.specs.declared.slot.Slot.TheVariants.{One};
ghost use Rattle.swc_tree_node.specs.declared.slot.Content.TheVariants.{Node as Of};
ghost use Rattle.swc_tree_node.specs.Fits.{Fits};
ghost use Rattle.swc_tree_statements.specs.Nodes.{expr_stmt_node};

use std::alloc::{AllocError, Global};
use swc_tree_handle::{Opened, Tree, class, clone_two, close_two, open_two};
use swc_tree_marks::Span;
use swc_tree_node::{Kind, Node};

/// An expression as a statement (ECMA-262, ExpressionStatement).
#[derive(Debug, Drop, PartialEq, Eq)]
pub struct ExprStmt {
    pub span: Span,
    pub expr: Tree<class::Expr>,
}

impl Clone for ExprStmt {
    ghost is_clone = { λ it copy. copy ≡ it };

    fn clone(&self) -> Result<ExprStmt, AllocError> {
        let (span, expr) = clone_two(&self.span, &self.expr)?;
        Ok(ExprStmt { span, expr })
    }
}

impl Opened<class::ExprStmt> for ExprStmt {
    ghost class = { class.ExprStmt };

    ghost node = { expr_stmt_node };

    fn from_node(closed: Node) -> ExprStmt
        requires { Fits closed (One (Of class.ExprStmt)) }
        ensures { expr_stmt_node result ≡ closed }
    {
        let (span, expr) = open_two::<class::ExprStmt, _, _>(closed, Kind::ExprStmt);
        ExprStmt { span, expr }
    }

    fn into_node(self, alloc: Global) -> Result<Node, AllocError>
        ensures { IfOk result (λ closed. (closed ≡ expr_stmt_node self) × Fits closed (One (Of class.ExprStmt))) }
    {
        let ExprStmt { span, expr } = self;
        close_two::<class::ExprStmt, _, _>(alloc, Kind::ExprStmt, (span, expr))
    }
}
