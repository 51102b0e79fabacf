//! Printed by tools/print_table.py from tools/tree.txt.
ghost use Rattle.std.specs.Prelude.{◌≡◌, IfOk};
ghost use Rattle.swc_tree_node.specs.declared.kind.Class.TheVariants as class;
ghost use Rattle.swc_tree_node.specs.declared.slot.Slot.TheVariants.{One};
ghost use Rattle.swc_tree_node.specs.declared.slot.Content.TheVariants.{Node as Of};
ghost use Rattle.swc_tree_node.specs.Fits.{Fits};
ghost use Rattle.swc_tree_operations.specs.Nodes.{expr_or_spread_node};

use std::alloc::{AllocError, Global};
use swc_tree_handle::{Opened, Tree, class, clone_two, close_two, open_two};
use swc_tree_marks::Span;
use swc_tree_node::{Kind, Node};

/// An argument or element, after `...` where it stands for its elements (ECMA-262, ArgumentList).
#[derive(Debug, Drop, PartialEq, Eq)]
pub struct ExprOrSpread {
    pub spread: Option<Span>,
    pub expr: Tree<class::Expr>,
}

impl Clone for ExprOrSpread {
    ghost is_clone = { λ it copy. copy ≡ it };

    fn clone(&self) -> Result<ExprOrSpread, AllocError> {
        let (spread, expr) = clone_two(&self.spread, &self.expr)?;
        Ok(ExprOrSpread { spread, expr })
    }
}

impl Opened<class::ExprOrSpread> for ExprOrSpread {
    ghost class = { class.ExprOrSpread };

    ghost node = { expr_or_spread_node };

    fn from_node(closed: Node) -> ExprOrSpread
        requires { Fits closed (One (Of class.ExprOrSpread)) }
        ensures { expr_or_spread_node result ≡ closed }
    {
        let (spread, expr) = open_two::<class::ExprOrSpread, _, _>(closed, Kind::ExprOrSpread);
        ExprOrSpread { spread, expr }
    }

    fn into_node(self, alloc: Global) -> Result<Node, AllocError>
        ensures { IfOk result (λ closed. (closed ≡ expr_or_spread_node self) × Fits closed (One (Of class.ExprOrSpread))) }
    {
        let ExprOrSpread { spread, expr } = self;
        close_two::<class::ExprOrSpread, _, _>(alloc, Kind::ExprOrSpread, (spread, expr))
    }
}
