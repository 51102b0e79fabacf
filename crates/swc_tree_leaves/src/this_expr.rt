//! Printed by tools/print_table.py from tools/tree.txt.
ghost use Rattle.std.specs.Prelude.{◌≡◌, IfOk};
ghost use Rattle.swc_tree_node.specs.declared.kind.Class.TheVariants as class;
ghost use Rattle.swc_tree_node.specs.declared.slot.Slot.TheVariants.{One};
ghost use Rattle.swc_tree_node.specs.declared.slot.Content.TheVariants.{Node as Of};
ghost use Rattle.swc_tree_node.specs.Fits.{Fits};
ghost use Rattle.swc_tree_leaves.specs.Nodes.{this_expr_node};

use std::alloc::{AllocError, Global};
use swc_tree_handle::{Opened, class, close_one, open_one};
use swc_tree_marks::Span;
use swc_tree_node::{Kind, Node};

/// `this` (ECMA-262, PrimaryExpression).
#[derive(Clone, Debug, Drop, PartialEq, Eq)]
pub struct ThisExpr {
    pub span: Span,
}

impl Opened<class::ThisExpr> for ThisExpr {
    ghost class = { class.ThisExpr };

    ghost node = { this_expr_node };

    fn from_node(closed: Node) -> ThisExpr
        requires { Fits closed (One (Of class.ThisExpr)) }
        ensures { this_expr_node result ≡ closed }
    {
        let span = open_one::<class::ThisExpr, _>(closed, Kind::ThisExpr);
        ThisExpr { span }
    }

    fn into_node(self, alloc: Global) -> Result<Node, AllocError>
        ensures { IfOk result (λ closed. (closed ≡ this_expr_node self) × Fits closed (One (Of class.ThisExpr))) }
    {
        let ThisExpr { span } = self;
        close_one::<class::ThisExpr, _>(alloc, Kind::ThisExpr, span)
    }
}
