//! Printed by tools/print_table.py from tools/tree.txt.
ghost use Rattle.std.specs.Prelude.{◌≡◌, IfOk};
ghost use Rattle.swc_tree_node.specs.declared.kind.Class.TheVariants as class;
ghost use Rattle.swc_tree_node.specs.declared.slot.Slot.TheVariants.{One};
ghost use Rattle.swc_tree_node.specs.declared.slot.Content.TheVariants.{Node as Of};
ghost use Rattle.swc_tree_node.specs.Fits.{Fits};
ghost use Rattle.swc_tree_statements.specs.Nodes.{for_in_stmt_node};

use std::alloc::{AllocError, Global};
use swc_tree_handle::{Opened, Tree, class, clone_four, close_four, open_four};
use swc_tree_marks::Span;
use swc_tree_node::{Kind, Node};

/// A `for` statement over keys (ECMA-262, ForInOfStatement).
#[derive(Debug, Drop, PartialEq, Eq)]
pub struct ForInStmt {
    pub span: Span,
    pub left: Tree<class::ForHead>,
    pub right: Tree<class::Expr>,
    pub body: Tree<class::Stmt>,
}

impl Clone for ForInStmt {
    ghost is_clone = { λ it copy. copy ≡ it };

    fn clone(&self) -> Result<ForInStmt, AllocError> {
        let (span, left, right, body) = clone_four(
            &self.span,
            &self.left,
            &self.right,
            &self.body,
        )?;
        Ok(ForInStmt {
            span,
            left,
            right,
            body,
        })
    }
}

impl Opened<class::ForInStmt> for ForInStmt {
    ghost class = { class.ForInStmt };

    ghost node = { for_in_stmt_node };

    fn from_node(closed: Node) -> ForInStmt
        requires { Fits closed (One (Of class.ForInStmt)) }
        ensures { for_in_stmt_node result ≡ closed }
    {
        let (span, left, right, body) = open_four::<class::ForInStmt, _, _, _, _>(
            closed,
            Kind::ForInStmt,
        );
        ForInStmt {
            span,
            left,
            right,
            body,
        }
    }

    fn into_node(self, alloc: Global) -> Result<Node, AllocError>
        ensures { IfOk result (λ closed. (closed ≡ for_in_stmt_node self) × Fits closed (One (Of class.ForInStmt))) }
    {
        let ForInStmt {
            span,
            left,
            right,
            body,
        } = self;
        close_four::<class::ForInStmt, _, _, _, _>(
            alloc,
            Kind::ForInStmt,
            (span, left, right, body),
        )
    }
}
