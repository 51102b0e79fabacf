//! Printed by tools/print_table.py from tools/tree.txt.
ghost use Rattle.std.specs.Prelude.{◌≡◌, IfOk};
ghost use Rattle.swc_tree_node.specs.declared.kind.Class.TheVariants as class;
ghost use Rattle.swc_tree_node.specs.declared.slot.Slot.TheVariants.{One};
ghost use Rattle.swc_tree_node.specs.declared.slot.Content.TheVariants.{Node as Of};
ghost use Rattle.swc_tree_node.specs.Fits.{Fits};
ghost use Rattle.swc_tree_leaves.specs.Nodes.{break_stmt_node};

use std::alloc::{AllocError, Global};
use swc_tree_handle::{Opened, class, close_two, open_two};
use swc_tree_marks::{Ident, Span};
use swc_tree_node::{Kind, Node};

/// A `break` statement (ECMA-262, BreakStatement).
#[derive(Clone, Debug, Drop, PartialEq, Eq)]
pub struct BreakStmt {
    pub span: Span,
    pub label: Option<Ident>,
}

impl Opened<class::BreakStmt> for BreakStmt {
    ghost class = { class.BreakStmt };

    ghost node = { break_stmt_node };

    fn from_node(closed: Node) -> BreakStmt
        requires { Fits closed (One (Of class.BreakStmt)) }
        ensures { break_stmt_node result ≡ closed }
    {
        let (span, label) = open_two::<class::BreakStmt, _, _>(closed, Kind::BreakStmt);
        BreakStmt { span, label }
    }

    fn into_node(self, alloc: Global) -> Result<Node, AllocError>
        ensures { IfOk result (λ closed. (closed ≡ break_stmt_node self) × Fits closed (One (Of class.BreakStmt))) }
    {
        let BreakStmt { span, label } = self;
        close_two::<class::BreakStmt, _, _>(alloc, Kind::BreakStmt, (span, label))
    }
}
