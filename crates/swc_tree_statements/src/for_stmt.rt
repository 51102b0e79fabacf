//! Printed by tools/print_table.py from tools/tree.txt.
ghost use Rattle.std.specs.Prelude.{◌≡◌, IfOk};
ghost use Rattle.swc_tree_node.specs.declared.kind.Class.TheVariants as class;
ghost use Rattle.swc_tree_node.specs.declared.slot.Slot.TheVariants.{One};
ghost use Rattle.swc_tree_node.specs.declared.slot.Content.TheVariants.{Node as Of};
ghost use Rattle.swc_tree_node.specs.Fits.{Fits};
ghost use Rattle.swc_tree_statements.specs.Nodes.{for_stmt_node};

use std::alloc::{AllocError, Global};
use swc_tree_handle::{Opened, Tree, class, clone_five, close_five, open_five};
use swc_tree_marks::Span;
use swc_tree_node::{Kind, Node};

/// A `for` statement (ECMA-262, ForStatement).
#[derive(Debug, Drop, PartialEq, Eq)]
pub struct ForStmt {
    pub span: Span,
    pub init: Option<Tree<class::VarDeclOrExpr>>,
    pub test: Option<Tree<class::Expr>>,
    pub update: Option<Tree<class::Expr>>,
    pub body: Tree<class::Stmt>,
}

impl Clone for ForStmt {
    ghost is_clone = { λ it copy. copy ≡ it };

    fn clone(&self) -> Result<ForStmt, AllocError> {
        let (span, init, test, update, body) = clone_five(
            &self.span,
            &self.init,
            &self.test,
            &self.update,
            &self.body,
        )?;
        Ok(ForStmt {
            span,
            init,
            test,
            update,
            body,
        })
    }
}

impl Opened<class::ForStmt> for ForStmt {
    ghost class = { class.ForStmt };

    ghost node = { for_stmt_node };

    fn from_node(closed: Node) -> ForStmt
        requires { Fits closed (One (Of class.ForStmt)) }
        ensures { for_stmt_node result ≡ closed }
    {
        let (span, init, test, update, body) = open_five::<class::ForStmt, _, _, _, _, _>(
            closed,
            Kind::ForStmt,
        );
        ForStmt {
            span,
            init,
            test,
            update,
            body,
        }
    }

    fn into_node(self, alloc: Global) -> Result<Node, AllocError>
        ensures { IfOk result (λ closed. (closed ≡ for_stmt_node self) × Fits closed (One (Of class.ForStmt))) }
    {
        let ForStmt {
            span,
            init,
            test,
            update,
            body,
        } = self;
        close_five::<class::ForStmt, _, _, _, _, _>(
            alloc,
            Kind::ForStmt,
            (span, init, test, update, body),
        )
    }
}
