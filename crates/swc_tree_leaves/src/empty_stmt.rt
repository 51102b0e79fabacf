//! Printed by tools/print_table.py from tools/tree.txt.
ghost use Rattle.std.specs.Prelude.{◌≡◌, IfOk};
ghost use Rattle.swc_tree_node.specs.declared.kind.Class.TheVariants as class;
ghost use Rattle.swc_tree_node.specs.declared.slot.Slot.TheVariants.{One};
ghost use Rattle.swc_tree_node.specs.declared.slot.Content.TheVariants.{Node as Of};
ghost use Rattle.swc_tree_node.specs.Fits.{Fits};
ghost use Rattle.swc_tree_leaves.specs.Nodes.{empty_stmt_node};

use std::alloc::{AllocError, Global};
use swc_tree_handle::{Opened, class, close_one, open_one};
use swc_tree_marks::Span;
use swc_tree_node::{Kind, Node};

/// An empty statement, or an empty member of a class (ECMA-262, EmptyStatement).
#[derive(Clone, Debug, Drop, PartialEq, Eq)]
pub struct EmptyStmt {
    pub span: Span,
}

impl Opened<class::EmptyStmt> for EmptyStmt {
    ghost class = { class.EmptyStmt };

    ghost node = { empty_stmt_node };

    fn from_node(closed: Node) -> EmptyStmt
        requires { Fits closed (One (Of class.EmptyStmt)) }
        ensures { empty_stmt_node result ≡ closed }
    {
        let span = open_one::<class::EmptyStmt, _>(closed, Kind::EmptyStmt);
        EmptyStmt { span }
    }

    fn into_node(self, alloc: Global) -> Result<Node, AllocError>
        ensures { IfOk result (λ closed. (closed ≡ empty_stmt_node self) × Fits closed (One (Of class.EmptyStmt))) }
    {
        let EmptyStmt { span } = self;
        close_one::<class::EmptyStmt, _>(alloc, Kind::EmptyStmt, span)
    }
}
