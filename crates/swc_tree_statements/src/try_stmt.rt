//! Printed by tools/print_table.py from tools/tree.txt.
ghost use Rattle.std.specs.Prelude.{◌≡◌, IfOk};
ghost use Rattle.swc_tree_node.specs.declared.kind.Class.TheVariants as class;
ghost use Rattle.swc_tree_node.specs.declared.slot.Slot.TheVariants.{One};
ghost use Rattle.swc_tree_node.specs.declared.slot.Content.TheVariants.{Node as Of};
ghost use Rattle.swc_tree_node.specs.Fits.{Fits};
ghost use Rattle.swc_tree_statements.specs.Nodes.{try_stmt_node};

use std::alloc::{AllocError, Global};
use swc_tree_handle::{Opened, Tree, class, clone_four, close_four, open_four};
use swc_tree_marks::Span;
use swc_tree_node::{Kind, Node};

/// A `try` statement (ECMA-262, TryStatement).
#[derive(Debug, Drop, PartialEq, Eq)]
pub struct TryStmt {
    pub span: Span,
    pub block: Tree<class::BlockStmt>,
    pub handler: Option<Tree<class::CatchClause>>,
    pub finalizer: Option<Tree<class::BlockStmt>>,
}

impl Clone for TryStmt {
    ghost is_clone = { λ it copy. copy ≡ it };

    fn clone(&self) -> Result<TryStmt, AllocError> {
        let (span, block, handler, finalizer) = clone_four(
            &self.span,
            &self.block,
            &self.handler,
            &self.finalizer,
        )?;
        Ok(TryStmt {
            span,
            block,
            handler,
            finalizer,
        })
    }
}

impl Opened<class::TryStmt> for TryStmt {
    ghost class = { class.TryStmt };

    ghost node = { try_stmt_node };

    fn from_node(closed: Node) -> TryStmt
        requires { Fits closed (One (Of class.TryStmt)) }
        ensures { try_stmt_node result ≡ closed }
    {
        let (span, block, handler, finalizer) = open_four::<class::TryStmt, _, _, _, _>(
            closed,
            Kind::TryStmt,
        );
        TryStmt {
            span,
            block,
            handler,
            finalizer,
        }
    }

    fn into_node(self, alloc: Global) -> Result<Node, AllocError>
        ensures { IfOk result (λ closed. (closed ≡ try_stmt_node self) × Fits closed (One (Of class.TryStmt))) }
    {
        let TryStmt {
            span,
            block,
            handler,
            finalizer,
        } = self;
        close_four::<class::TryStmt, _, _, _, _>(
            alloc,
            Kind::TryStmt,
            (span, block, handler, finalizer),
        )
    }
}
