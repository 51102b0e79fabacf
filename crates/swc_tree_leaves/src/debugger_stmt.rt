//! Printed by tools/print_table.py from tools/tree.txt.
ghost use Rattle.std.specs.Prelude.{◌≡◌, IfOk};
ghost use Rattle.swc_tree_node.specs.declared.kind.Class.TheVariants as class;
ghost use Rattle.swc_tree_node.specs.declared.slot.Slot.TheVariants.{One};
ghost use Rattle.swc_tree_node.specs.declared.slot.Content.TheVariants.{Node as Of};
ghost use Rattle.swc_tree_node.specs.Fits.{Fits};
ghost use Rattle.swc_tree_leaves.specs.Nodes.{debugger_stmt_node};

use std::alloc::{AllocError, Global};
use swc_tree_handle::{Opened, class, close_one, open_one};
use swc_tree_marks::Span;
use swc_tree_node::{Kind, Node};

/// A `debugger` statement (ECMA-262, DebuggerStatement).
#[derive(Clone, Debug, Drop, PartialEq, Eq)]
pub struct DebuggerStmt {
    pub span: Span,
}

impl Opened<class::DebuggerStmt> for DebuggerStmt {
    ghost class = { class.DebuggerStmt };

    ghost node = { debugger_stmt_node };

    fn from_node(closed: Node) -> DebuggerStmt
        requires { Fits closed (One (Of class.DebuggerStmt)) }
        ensures { debugger_stmt_node result ≡ closed }
    {
        let span = open_one::<class::DebuggerStmt, _>(closed, Kind::DebuggerStmt);
        DebuggerStmt { span }
    }

    fn into_node(self, alloc: Global) -> Result<Node, AllocError>
        ensures { IfOk result (λ closed. (closed ≡ debugger_stmt_node self) × Fits closed (One (Of class.DebuggerStmt))) }
    {
        let DebuggerStmt { span } = self;
        close_one::<class::DebuggerStmt, _>(alloc, Kind::DebuggerStmt, span)
    }
}
