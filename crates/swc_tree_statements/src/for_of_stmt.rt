//! Printed by tools/print_table.py from tools/tree.txt.
ghost use Rattle.std.specs.Prelude.{◌≡◌, IfOk};
ghost use Rattle.swc_tree_node.specs.declared.kind.Class.TheVariants as class;
ghost use Rattle.swc_tree_node.specs.declared.slot.Slot.TheVariants.{One};
ghost use Rattle.swc_tree_node.specs.declared.slot.Content.TheVariants.{Node as Of};
ghost use Rattle.swc_tree_node.specs.Fits.{Fits};
ghost use Rattle.swc_tree_statements.specs.Nodes.{for_of_stmt_node};

use std::alloc::{AllocError, Global};
use swc_tree_handle::{Opened, Tree, class, clone_five, close_five, open_five};
use swc_tree_marks::Span;
use swc_tree_node::{Kind, Node};

/// A `for` statement over values (ECMA-262, ForInOfStatement).
#[derive(Debug, Drop, PartialEq, Eq)]
pub struct ForOfStmt {
    pub span: Span,
    pub is_await: bool,
    pub left: Tree<class::ForHead>,
    pub right: Tree<class::Expr>,
    pub body: Tree<class::Stmt>,
}

impl Clone for ForOfStmt {
    ghost is_clone = { λ it copy. copy ≡ it };

    fn clone(&self) -> Result<ForOfStmt, AllocError> {
        let (span, is_await, left, right, body) = clone_five(
            &self.span,
            &self.is_await,
            &self.left,
            &self.right,
            &self.body,
        )?;
        Ok(ForOfStmt {
            span,
            is_await,
            left,
            right,
            body,
        })
    }
}

impl Opened<class::ForOfStmt> for ForOfStmt {
    ghost class = { class.ForOfStmt };

    ghost node = { for_of_stmt_node };

    fn from_node(closed: Node) -> ForOfStmt
        requires { Fits closed (One (Of class.ForOfStmt)) }
        ensures { for_of_stmt_node result ≡ closed }
    {
        let (span, is_await, left, right, body) = open_five::<class::ForOfStmt, _, _, _, _, _>(
            closed,
            Kind::ForOfStmt,
        );
        ForOfStmt {
            span,
            is_await,
            left,
            right,
            body,
        }
    }

    fn into_node(self, alloc: Global) -> Result<Node, AllocError>
        ensures { IfOk result (λ closed. (closed ≡ for_of_stmt_node self) × Fits closed (One (Of class.ForOfStmt))) }
    {
        let ForOfStmt {
            span,
            is_await,
            left,
            right,
            body,
        } = self;
        close_five::<class::ForOfStmt, _, _, _, _, _>(
            alloc,
            Kind::ForOfStmt,
            (span, is_await, left, right, body),
        )
    }
}
