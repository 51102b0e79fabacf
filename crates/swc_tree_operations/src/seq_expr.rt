//! Printed by tools/print_table.py from tools/tree.txt.
ghost use Rattle.std.specs.Prelude.{◌≡◌, IfOk};
ghost use Rattle.swc_tree_node.specs.declared.kind.Class.TheVariants as class;
ghost use Rattle.swc_tree_node.specs.declared.slot.Slot.TheVariants.{One};
ghost use Rattle.swc_tree_node.specs.declared.slot.Content.TheVariants.{Node as Of};
ghost use Rattle.swc_tree_node.specs.Fits.{Fits};
ghost use Rattle.swc_tree_operations.specs.Nodes.{seq_expr_node};

use std::alloc::{AllocError, Global};
use swc_tree_handle::{Opened, Trees, class, clone_two, close_two, open_two};
use swc_tree_marks::Span;
use swc_tree_node::{Kind, Node};

/// Expressions one after another (ECMA-262, Expression).
#[derive(Debug, Drop, PartialEq, Eq)]
pub struct SeqExpr {
    pub span: Span,
    pub exprs: Trees<class::Expr>,
}

impl Clone for SeqExpr {
    ghost is_clone = { λ it copy. copy ≡ it };

    fn clone(&self) -> Result<SeqExpr, AllocError> {
        let (span, exprs) = clone_two(&self.span, &self.exprs)?;
        Ok(SeqExpr { span, exprs })
    }
}

impl Opened<class::SeqExpr> for SeqExpr {
    ghost class = { class.SeqExpr };

    ghost node = { seq_expr_node };

    fn from_node(closed: Node) -> SeqExpr
        requires { Fits closed (One (Of class.SeqExpr)) }
        ensures { seq_expr_node result ≡ closed }
    {
        let (span, exprs) = open_two::<class::SeqExpr, _, _>(closed, Kind::SeqExpr);
        SeqExpr { span, exprs }
    }

    fn into_node(self, alloc: Global) -> Result<Node, AllocError>
        ensures { IfOk result (λ closed. (closed ≡ seq_expr_node self) × Fits closed (One (Of class.SeqExpr))) }
    {
        let SeqExpr { span, exprs } = self;
        close_two::<class::SeqExpr, _, _>(alloc, Kind::SeqExpr, (span, exprs))
    }
}
