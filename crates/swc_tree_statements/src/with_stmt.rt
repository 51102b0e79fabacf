//! Printed by tools/print_table.py from tools/tree.txt.
ghost use Rattle.std.specs.Prelude.{◌≡◌, IfOk};
ghost use Rattle.swc_tree_node.specs.declared.kind.Class.TheVariants as class;
ghost use Rattle.swc_tree_node.specs.declared.slot.Slot.TheVariants.{One};
ghost use Rattle.swc_tree_node.specs.declared.slot.Content.TheVariants.{Node as Of};
ghost use Rattle.swc_tree_node.specs.Fits.{Fits};
ghost use Rattle.swc_tree_statements.specs.Nodes.{with_stmt_node};

use std::alloc::{AllocError, Global};
use swc_tree_handle::{Opened, Tree, class, clone_three, close_three, open_three};
use swc_tree_marks::Span;
use swc_tree_node::{Kind, Node};

/// A `with` statement (ECMA-262, WithStatement).
#[derive(Debug, Drop, PartialEq, Eq)]
pub struct WithStmt {
    pub span: Span,
    pub obj: Tree<class::Expr>,
    pub body: Tree<class::Stmt>,
}

impl Clone for WithStmt {
    ghost is_clone = { λ it copy. copy ≡ it };

    fn clone(&self) -> Result<WithStmt, AllocError> {
        let (span, obj, body) = clone_three(&self.span, &self.obj, &self.body)?;
        Ok(WithStmt { span, obj, body })
    }
}

impl Opened<class::WithStmt> for WithStmt {
    ghost class = { class.WithStmt };

    ghost node = { with_stmt_node };

    fn from_node(closed: Node) -> WithStmt
        requires { Fits closed (One (Of class.WithStmt)) }
        ensures { with_stmt_node result ≡ closed }
    {
        let (span, obj, body) = open_three::<class::WithStmt, _, _, _>(closed, Kind::WithStmt);
        WithStmt { span, obj, body }
    }

    fn into_node(self, alloc: Global) -> Result<Node, AllocError>
        ensures { IfOk result (λ closed. (closed ≡ with_stmt_node self) × Fits closed (One (Of class.WithStmt))) }
    {
        let WithStmt { span, obj, body } = self;
        close_three::<class::WithStmt, _, _, _>(alloc, Kind::WithStmt, (span, obj, body))
    }
}
