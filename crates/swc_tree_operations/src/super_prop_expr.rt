//! Printed by tools/print_table.py from tools/tree.txt.
ghost use Rattle.std.specs.Prelude.{◌≡◌, IfOk};
ghost use Rattle.swc_tree_node.specs.declared.kind.Class.TheVariants as class;
ghost use Rattle.swc_tree_node.specs.declared.slot.Slot.TheVariants.{One};
ghost use Rattle.swc_tree_node.specs.declared.slot.Content.TheVariants.{Node as Of};
ghost use Rattle.swc_tree_node.specs.Fits.{Fits};
ghost use Rattle.swc_tree_operations.specs.Nodes.{super_prop_expr_node};

use std::alloc::{AllocError, Global};
use swc_tree_handle::{Opened, Tree, class, clone_three, close_three, open_three};
use swc_tree_leaves::Super;
use swc_tree_marks::Span;
use swc_tree_node::{Kind, Node};

/// A property of `super` (ECMA-262, SuperProperty).
#[derive(Debug, Drop, PartialEq, Eq)]
pub struct SuperPropExpr {
    pub span: Span,
    pub obj: Super,
    pub prop: Tree<class::SuperProp>,
}

impl Clone for SuperPropExpr {
    ghost is_clone = { λ it copy. copy ≡ it };

    fn clone(&self) -> Result<SuperPropExpr, AllocError> {
        let (span, obj, prop) = clone_three(&self.span, &self.obj, &self.prop)?;
        Ok(SuperPropExpr { span, obj, prop })
    }
}

impl Opened<class::SuperPropExpr> for SuperPropExpr {
    ghost class = { class.SuperPropExpr };

    ghost node = { super_prop_expr_node };

    fn from_node(closed: Node) -> SuperPropExpr
        requires { Fits closed (One (Of class.SuperPropExpr)) }
        ensures { super_prop_expr_node result ≡ closed }
    {
        let (span, obj, prop) = open_three::<class::SuperPropExpr, _, _, _>(
            closed,
            Kind::SuperPropExpr,
        );
        SuperPropExpr { span, obj, prop }
    }

    fn into_node(self, alloc: Global) -> Result<Node, AllocError>
        ensures { IfOk result (λ closed. (closed ≡ super_prop_expr_node self) × Fits closed (One (Of class.SuperPropExpr))) }
    {
        let SuperPropExpr { span, obj, prop } = self;
        close_three::<class::SuperPropExpr, _, _, _>(alloc, Kind::SuperPropExpr, (span, obj, prop))
    }
}
