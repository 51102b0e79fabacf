//! Printed by tools/print_table.py from tools/tree.txt.
ghost use Rattle.std.specs.Prelude.{◌≡◌, IfOk};
ghost use Rattle.swc_tree_node.specs.declared.kind.Class.TheVariants as class;
ghost use Rattle.swc_tree_node.specs.declared.slot.Slot.TheVariants.{One};
ghost use Rattle.swc_tree_node.specs.declared.slot.Content.TheVariants.{Node as Of};
ghost use Rattle.swc_tree_node.specs.Fits.{Fits};
ghost use Rattle.swc_tree_functions.specs.Nodes.{arrow_expr_node};

use std::alloc::{AllocError, Global};
use swc_tree_handle::{Opened, Tree, Trees, class, clone_four, close_four, open_four};
use swc_tree_marks::Span;
use swc_tree_node::{Kind, Node};

/// An arrow function (ECMA-262, ArrowFunction).
#[derive(Debug, Drop, PartialEq, Eq)]
pub struct ArrowExpr {
    pub span: Span,
    pub params: Trees<class::Pat>,
    pub body: Tree<class::BlockStmtOrExpr>,
    pub is_async: bool,
}

impl Clone for ArrowExpr {
    ghost is_clone = { λ it copy. copy ≡ it };

    fn clone(&self) -> Result<ArrowExpr, AllocError> {
        let (span, params, body, is_async) = clone_four(
            &self.span,
            &self.params,
            &self.body,
            &self.is_async,
        )?;
        Ok(ArrowExpr {
            span,
            params,
            body,
            is_async,
        })
    }
}

impl Opened<class::ArrowExpr> for ArrowExpr {
    ghost class = { class.ArrowExpr };

    ghost node = { arrow_expr_node };

    fn from_node(closed: Node) -> ArrowExpr
        requires { Fits closed (One (Of class.ArrowExpr)) }
        ensures { arrow_expr_node result ≡ closed }
    {
        let (span, params, body, is_async) = open_four::<class::ArrowExpr, _, _, _, _>(
            closed,
            Kind::ArrowExpr,
        );
        ArrowExpr {
            span,
            params,
            body,
            is_async,
        }
    }

    fn into_node(self, alloc: Global) -> Result<Node, AllocError>
        ensures { IfOk result (λ closed. (closed ≡ arrow_expr_node self) × Fits closed (One (Of class.ArrowExpr))) }
    {
        let ArrowExpr {
            span,
            params,
            body,
            is_async,
        } = self;
        close_four::<class::ArrowExpr, _, _, _, _>(
            alloc,
            Kind::ArrowExpr,
            (span, params, body, is_async),
        )
    }
}
