//! Printed by tools/print_table.py from tools/tree.txt.
ghost use Rattle.std.specs.Prelude.{◌≡◌, IfOk};
ghost use Rattle.swc_tree_node.specs.declared.kind.Class.TheVariants as class;
ghost use Rattle.swc_tree_node.specs.declared.slot.Slot.TheVariants.{One};
ghost use Rattle.swc_tree_node.specs.declared.slot.Content.TheVariants.{Node as Of};
ghost use Rattle.swc_tree_node.specs.Fits.{Fits};
ghost use Rattle.swc_tree_statements.specs.Nodes.{while_stmt_node};

use std::alloc::{AllocError, Global};
use swc_tree_handle::{Opened, Tree, class, clone_three, close_three, open_three};
use swc_tree_marks::Span;
use swc_tree_node::{Kind, Node};

/// A `while` statement (ECMA-262, WhileStatement).
#[derive(Debug, Drop, PartialEq, Eq)]
pub struct WhileStmt {
    pub span: Span,
    pub test: Tree<class::Expr>,
    pub body: Tree<class::Stmt>,
}

impl Clone for WhileStmt {
    ghost is_clone = { λ it copy. copy ≡ it };

    fn clone(&self) -> Result<WhileStmt, AllocError> {
        let (span, test, body) = clone_three(&self.span, &self.test, &self.body)?;
        Ok(WhileStmt { span, test, body })
    }
}

impl Opened<class::WhileStmt> for WhileStmt {
    ghost class = { class.WhileStmt };

    ghost node = { while_stmt_node };

    fn from_node(closed: Node) -> WhileStmt
        requires { Fits closed (One (Of class.WhileStmt)) }
        ensures { while_stmt_node result ≡ closed }
    {
        let (span, test, body) = open_three::<class::WhileStmt, _, _, _>(closed, Kind::WhileStmt);
        WhileStmt { span, test, body }
    }

    fn into_node(self, alloc: Global) -> Result<Node, AllocError>
        ensures { IfOk result (λ closed. (closed ≡ while_stmt_node self) × Fits closed (One (Of class.WhileStmt))) }
    {
        let WhileStmt { span, test, body } = self;
        close_three::<class::WhileStmt, _, _, _>(alloc, Kind::WhileStmt, (span, test, body))
    }
}
