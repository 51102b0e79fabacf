//! Printed by tools/print_table.py from tools/tree.txt.
ghost use Rattle.std.specs.Prelude.{◌≡◌, IfOk};
ghost use Rattle.swc_tree_node.specs.declared.kind.Class.TheVariants as class;
ghost use Rattle.swc_tree_node.specs.declared.slot.Slot.TheVariants.{One};
ghost use Rattle.swc_tree_node.specs.declared.slot.Content.TheVariants.{Node as Of};
ghost use Rattle.swc_tree_node.specs.Fits.{Fits};
ghost use Rattle.swc_tree_operations.specs.Nodes.{cond_expr_node};

use std::alloc::{AllocError, Global};
use swc_tree_handle::{Opened, Tree, class, clone_four, close_four, open_four};
use swc_tree_marks::Span;
use swc_tree_node::{Kind, Node};

/// A choice by a test (ECMA-262, ConditionalExpression).
#[derive(Debug, Drop, PartialEq, Eq)]
pub struct CondExpr {
    pub span: Span,
    pub test: Tree<class::Expr>,
    pub cons: Tree<class::Expr>,
    pub alt: Tree<class::Expr>,
}

impl Clone for CondExpr {
    ghost is_clone = { λ it copy. copy ≡ it };

    fn clone(&self) -> Result<CondExpr, AllocError> {
        let (span, test, cons, alt) = clone_four(&self.span, &self.test, &self.cons, &self.alt)?;
        Ok(CondExpr {
            span,
            test,
            cons,
            alt,
        })
    }
}

impl Opened<class::CondExpr> for CondExpr {
    ghost class = { class.CondExpr };

    ghost node = { cond_expr_node };

    fn from_node(closed: Node) -> CondExpr
        requires { Fits closed (One (Of class.CondExpr)) }
        ensures { cond_expr_node result ≡ closed }
    {
        let (span, test, cons, alt) = open_four::<class::CondExpr, _, _, _, _>(
            closed,
            Kind::CondExpr,
        );
        CondExpr {
            span,
            test,
            cons,
            alt,
        }
    }

    fn into_node(self, alloc: Global) -> Result<Node, AllocError>
        ensures { IfOk result (λ closed. (closed ≡ cond_expr_node self) × Fits closed (One (Of class.CondExpr))) }
    {
        let CondExpr {
            span,
            test,
            cons,
            alt,
        } = self;
        close_four::<class::CondExpr, _, _, _, _>(alloc, Kind::CondExpr, (span, test, cons, alt))
    }
}
