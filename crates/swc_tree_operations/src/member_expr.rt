//! Printed by tools/print_table.py from tools/tree.txt.
ghost use Rattle.std.specs.Prelude.{◌≡◌, IfOk};
ghost use Rattle.swc_tree_node.specs.declared.kind.Class.TheVariants as class;
ghost use Rattle.swc_tree_node.specs.declared.slot.Slot.TheVariants.{One};
ghost use Rattle.swc_tree_node.specs.declared.slot.Content.TheVariants.{Node as Of};
ghost use Rattle.swc_tree_node.specs.Fits.{Fits};
ghost use Rattle.swc_tree_operations.specs.Nodes.{member_expr_node};

use std::alloc::{AllocError, Global};
use swc_tree_handle::{Opened, Tree, class, clone_three, close_three, open_three};
use swc_tree_marks::Span;
use swc_tree_node::{Kind, Node};

/// A property of an object (ECMA-262, MemberExpression).
#[derive(Debug, Drop, PartialEq, Eq)]
pub struct MemberExpr {
    pub span: Span,
    pub obj: Tree<class::Expr>,
    pub prop: Tree<class::MemberProp>,
}

impl Clone for MemberExpr {
    ghost is_clone = { λ it copy. copy ≡ it };

    fn clone(&self) -> Result<MemberExpr, AllocError> {
        let (span, obj, prop) = clone_three(&self.span, &self.obj, &self.prop)?;
        Ok(MemberExpr { span, obj, prop })
    }
}

impl Opened<class::MemberExpr> for MemberExpr {
    ghost class = { class.MemberExpr };

    ghost node = { member_expr_node };

    fn from_node(closed: Node) -> MemberExpr
        requires { Fits closed (One (Of class.MemberExpr)) }
        ensures { member_expr_node result ≡ closed }
    {
        let (span, obj, prop) = open_three::<class::MemberExpr, _, _, _>(closed, Kind::MemberExpr);
        MemberExpr { span, obj, prop }
    }

    fn into_node(self, alloc: Global) -> Result<Node, AllocError>
        ensures { IfOk result (λ closed. (closed ≡ member_expr_node self) × Fits closed (One (Of class.MemberExpr))) }
    {
        let MemberExpr { span, obj, prop } = self;
        close_three::<class::MemberExpr, _, _, _>(alloc, Kind::MemberExpr, (span, obj, prop))
    }
}
