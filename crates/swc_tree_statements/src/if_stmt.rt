//! Printed by tools/print_table.py from tools/tree.txt.
ghost use Rattle.std.specs.Prelude.{◌≡◌, IfOk};
ghost use Rattle.swc_tree_node.specs.declared.kind.Class.TheVariants as class;
ghost use Rattle.swc_tree_node.specs.declared.slot.Slot.TheVariants.{One};
ghost use Rattle.swc_tree_node.specs.declared.slot.Content.TheVariants.{Node as Of};
ghost use Rattle.swc_tree_node.specs.Fits.{Fits};
ghost use Rattle.swc_tree_statements.specs.Nodes.{if_stmt_node};

use std::alloc::{AllocError, Global};
use swc_tree_handle::{Opened, Tree, class, clone_four, close_four, open_four};
use swc_tree_marks::Span;
use swc_tree_node::{Kind, Node};

/// An `if` statement (ECMA-262, IfStatement).
#[derive(Debug, Drop, PartialEq, Eq)]
pub struct IfStmt {
    pub span: Span,
    pub test: Tree<class::Expr>,
    pub cons: Tree<class::Stmt>,
    pub alt: Option<Tree<class::Stmt>>,
}

impl Clone for IfStmt {
    ghost is_clone = { λ it copy. copy ≡ it };

    fn clone(&self) -> Result<IfStmt, AllocError> {
        let (span, test, cons, alt) = clone_four(&self.span, &self.test, &self.cons, &self.alt)?;
        Ok(IfStmt {
            span,
            test,
            cons,
            alt,
        })
    }
}

impl Opened<class::IfStmt> for IfStmt {
    ghost class = { class.IfStmt };

    ghost node = { if_stmt_node };

    fn from_node(closed: Node) -> IfStmt
        requires { Fits closed (One (Of class.IfStmt)) }
        ensures { if_stmt_node result ≡ closed }
    {
        let (span, test, cons, alt) = open_four::<class::IfStmt, _, _, _, _>(closed, Kind::IfStmt);
        IfStmt {
            span,
            test,
            cons,
            alt,
        }
    }

    fn into_node(self, alloc: Global) -> Result<Node, AllocError>
        ensures { IfOk result (λ closed. (closed ≡ if_stmt_node self) × Fits closed (One (Of class.IfStmt))) }
    {
        let IfStmt {
            span,
            test,
            cons,
            alt,
        } = self;
        close_four::<class::IfStmt, _, _, _, _>(alloc, Kind::IfStmt, (span, test, cons, alt))
    }
}
