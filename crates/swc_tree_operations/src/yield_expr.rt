//! Printed by tools/print_table.py from tools/tree.txt.
ghost use Rattle.std.specs.Prelude.{◌≡◌, IfOk};
ghost use Rattle.swc_tree_node.specs.declared.kind.Class.TheVariants as class;
ghost use Rattle.swc_tree_node.specs.declared.slot.Slot.TheVariants.{One};
ghost use Rattle.swc_tree_node.specs.declared.slot.Content.TheVariants.{Node as Of};
ghost use Rattle.swc_tree_node.specs.Fits.{Fits};
ghost use Rattle.swc_tree_operations.specs.Nodes.{yield_expr_node};

use std::alloc::{AllocError, Global};
use swc_tree_handle::{Opened, Tree, class, close_three, open_three};
use swc_tree_marks::Span;
use swc_tree_node::{Kind, Node};

/// `yield` (ECMA-262, YieldExpression).
#[derive(Clone, Debug, Drop, PartialEq, Eq)]
pub struct YieldExpr {
    pub span: Span,
    pub arg: Option<Tree<class::Expr>>,
    pub delegate: bool,
}

impl Opened<class::YieldExpr> for YieldExpr {
    ghost class = { class.YieldExpr };

    ghost node = { yield_expr_node };

    fn from_node(closed: Node) -> YieldExpr
        requires { Fits closed (One (Of class.YieldExpr)) }
        ensures { yield_expr_node result ≡ closed }
    {
        let (span, arg, delegate) = open_three::<class::YieldExpr, _, _, _>(
            closed,
            Kind::YieldExpr,
        );
        YieldExpr {
            span,
            arg,
            delegate,
        }
    }

    fn into_node(self, alloc: Global) -> Result<Node, AllocError>
        ensures { IfOk result (λ closed. (closed ≡ yield_expr_node self) × Fits closed (One (Of class.YieldExpr))) }
    {
        let YieldExpr {
            span,
            arg,
            delegate,
        } = self;
        close_three::<class::YieldExpr, _, _, _>(alloc, Kind::YieldExpr, (span, arg, delegate))
    }
}
