//! Printed by tools/print_table.py from tools/tree.txt.
ghost use Rattle.std.specs.Prelude.{◌≡◌, IfOk};
ghost use Rattle.swc_tree_node.specs.declared.kind.Class.TheVariants as class;
ghost use Rattle.swc_tree_node.specs.declared.slot.Slot.TheVariants.{One};
ghost use Rattle.swc_tree_node.specs.declared.slot.Content.TheVariants.{Node as Of};
ghost use Rattle.swc_tree_node.specs.Fits.{Fits};
ghost use Rattle.swc_tree_statements.specs.Nodes.{do_while_stmt_node};

use std::alloc::{AllocError, Global};
use swc_tree_handle::{Opened, Tree, class, clone_three, close_three, open_three};
use swc_tree_marks::Span;
use swc_tree_node::{Kind, Node};

/// A `do` statement (ECMA-262, DoWhileStatement).
#[derive(Debug, Drop, PartialEq, Eq)]
pub struct DoWhileStmt {
    pub span: Span,
    pub body: Tree<class::Stmt>,
    pub test: Tree<class::Expr>,
}

impl Clone for DoWhileStmt {
    ghost is_clone = { λ it copy. copy ≡ it };

    fn clone(&self) -> Result<DoWhileStmt, AllocError> {
        let (span, body, test) = clone_three(&self.span, &self.body, &self.test)?;
        Ok(DoWhileStmt { span, body, test })
    }
}

impl Opened<class::DoWhileStmt> for DoWhileStmt {
    ghost class = { class.DoWhileStmt };

    ghost node = { do_while_stmt_node };

    fn from_node(closed: Node) -> DoWhileStmt
        requires { Fits closed (One (Of class.DoWhileStmt)) }
        ensures { do_while_stmt_node result ≡ closed }
    {
        let (span, body, test) = open_three::<class::DoWhileStmt, _, _, _>(
            closed,
            Kind::DoWhileStmt,
        );
        DoWhileStmt { span, body, test }
    }

    fn into_node(self, alloc: Global) -> Result<Node, AllocError>
        ensures { IfOk result (λ closed. (closed ≡ do_while_stmt_node self) × Fits closed (One (Of class.DoWhileStmt))) }
    {
        let DoWhileStmt { span, body, test } = self;
        close_three::<class::DoWhileStmt, _, _, _>(alloc, Kind::DoWhileStmt, (span, body, test))
    }
}
