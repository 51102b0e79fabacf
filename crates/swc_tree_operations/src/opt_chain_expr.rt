//! Printed by tools/print_table.py from tools/tree.txt.
ghost use Rattle.std.specs.Prelude.{◌≡◌, IfOk};
ghost use Rattle.swc_tree_node.specs.declared.kind.Class.TheVariants as class;
ghost use Rattle.swc_tree_node.specs.declared.slot.Slot.TheVariants.{One};
ghost use Rattle.swc_tree_node.specs.declared.slot.Content.TheVariants.{Node as Of};
ghost use Rattle.swc_tree_node.specs.Fits.{Fits};
ghost use Rattle.swc_tree_operations.specs.Nodes.{opt_chain_expr_node};

use std::alloc::{AllocError, Global};
use swc_tree_handle::{Opened, Tree, class, clone_three, close_three, open_three};
use swc_tree_marks::Span;
use swc_tree_node::{Kind, Node};

/// A part of an optional chain; whether it begins with `?.` (ECMA-262, OptionalExpression).
#[derive(Debug, Drop, PartialEq, Eq)]
pub struct OptChainExpr {
    pub span: Span,
    pub optional: bool,
    pub base: Tree<class::OptChainBase>,
}

impl Clone for OptChainExpr {
    ghost is_clone = { λ it copy. copy ≡ it };

    fn clone(&self) -> Result<OptChainExpr, AllocError> {
        let (span, optional, base) = clone_three(&self.span, &self.optional, &self.base)?;
        Ok(OptChainExpr {
            span,
            optional,
            base,
        })
    }
}

impl Opened<class::OptChainExpr> for OptChainExpr {
    ghost class = { class.OptChainExpr };

    ghost node = { opt_chain_expr_node };

    fn from_node(closed: Node) -> OptChainExpr
        requires { Fits closed (One (Of class.OptChainExpr)) }
        ensures { opt_chain_expr_node result ≡ closed }
    {
        let (span, optional, base) = open_three::<class::OptChainExpr, _, _, _>(
            closed,
            Kind::OptChainExpr,
        );
        OptChainExpr {
            span,
            optional,
            base,
        }
    }

    fn into_node(self, alloc: Global) -> Result<Node, AllocError>
        ensures { IfOk result (λ closed. (closed ≡ opt_chain_expr_node self) × Fits closed (One (Of class.OptChainExpr))) }
    {
        let OptChainExpr {
            span,
            optional,
            base,
        } = self;
        close_three::<class::OptChainExpr, _, _, _>(
            alloc,
            Kind::OptChainExpr,
            (span, optional, base),
        )
    }
}
