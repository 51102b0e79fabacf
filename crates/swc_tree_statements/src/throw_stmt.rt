//! Printed by tools/print_table.py from tools/tree.txt.
ghost use Rattle.std.specs.Prelude.{◌≡◌, IfOk};
ghost use Rattle.swc_tree_node.specs.declared.kind.Class.TheVariants as class;
ghost use Rattle.swc_tree_node.specs.declared.slot.Slot.TheVariants.{One};
ghost use Rattle.swc_tree_node.specs.declared.slot.Content.TheVariants.{Node as Of};
ghost use Rattle.swc_tree_node.specs.Fits.{Fits};
ghost use Rattle.swc_tree_statements.specs.Nodes.{throw_stmt_node};

use std::alloc::{AllocError, Global};
use swc_tree_handle::{Opened, Tree, class, clone_two, close_two, open_two};
use swc_tree_marks::Span;
use swc_tree_node::{Kind, Node};

/// A throw statement (ECMA-262, ThrowStatement).
#[derive(Debug, Drop, PartialEq, Eq)]
pub struct ThrowStmt {
    pub span: Span,
    pub arg: Tree<class::Expr>,
}

impl Clone for ThrowStmt {
    ghost is_clone = { λ it copy. copy ≡ it };

    fn clone(&self) -> Result<ThrowStmt, AllocError> {
        let (span, arg) = clone_two(&self.span, &self.arg)?;
        Ok(ThrowStmt { span, arg })
    }
}

impl Opened<class::ThrowStmt> for ThrowStmt {
    ghost class = { class.ThrowStmt };

    ghost node = { throw_stmt_node };

    fn from_node(closed: Node) -> ThrowStmt
        requires { Fits closed (One (Of class.ThrowStmt)) }
        ensures { throw_stmt_node result ≡ closed }
    {
        let (span, arg) = open_two::<class::ThrowStmt, _, _>(closed, Kind::ThrowStmt);
        ThrowStmt { span, arg }
    }

    fn into_node(self, alloc: Global) -> Result<Node, AllocError>
        ensures { IfOk result (λ closed. (closed ≡ throw_stmt_node self) × Fits closed (One (Of class.ThrowStmt))) }
    {
        let ThrowStmt { span, arg } = self;
        close_two::<class::ThrowStmt, _, _>(alloc, Kind::ThrowStmt, (span, arg))
    }
}
