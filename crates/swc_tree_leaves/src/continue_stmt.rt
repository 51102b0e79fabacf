//! Printed by tools/print_table.py from tools/tree.txt.
ghost use Rattle.std.specs.Prelude.{◌≡◌, IfOk};
ghost use Rattle.swc_tree_node.specs.declared.kind.Class.TheVariants as class;
ghost use Rattle.swc_tree_node.specs.declared.slot.Slot.TheVariants.{One};
ghost use Rattle.swc_tree_node.specs.declared.slot.Content.TheVariants.{Node as Of};
ghost use Rattle.swc_tree_node.specs.Fits.{Fits};
ghost use Rattle.swc_tree_leaves.specs.Nodes.{continue_stmt_node};

use std::alloc::{AllocError, Global};
use swc_tree_handle::{Opened, class, close_two, open_two};
use swc_tree_marks::{Ident, Span};
use swc_tree_node::{Kind, Node};

/// A `continue` statement (ECMA-262, ContinueStatement).
#[derive(Clone, Debug, Drop, PartialEq, Eq)]
pub struct ContinueStmt {
    pub span: Span,
    pub label: Option<Ident>,
}

impl Opened<class::ContinueStmt> for ContinueStmt {
    ghost class = { class.ContinueStmt };

    ghost node = { continue_stmt_node };

    fn from_node(closed: Node) -> ContinueStmt
        requires { Fits closed (One (Of class.ContinueStmt)) }
        ensures { continue_stmt_node result ≡ closed }
    {
        let (span, label) = open_two::<class::ContinueStmt, _, _>(closed, Kind::ContinueStmt);
        ContinueStmt { span, label }
    }

    fn into_node(self, alloc: Global) -> Result<Node, AllocError>
        ensures { IfOk result (λ closed. (closed ≡ continue_stmt_node self) × Fits closed (One (Of class.ContinueStmt))) }
    {
        let ContinueStmt { span, label } = self;
        close_two::<class::ContinueStmt, _, _>(alloc, Kind::ContinueStmt, (span, label))
    }
}
