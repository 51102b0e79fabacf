//! Printed by tools/print_table.py from tools/tree.txt.
ghost use Rattle.std.specs.Prelude.{◌≡◌, IfOk};
ghost use Rattle.swc_tree_node.specs.declared.kind.Class.TheVariants as class;
ghost use Rattle.swc_tree_node.specs.declared.slot.Slot.TheVariants.{One};
ghost use Rattle.swc_tree_node.specs.declared.slot.Content.TheVariants.{Node as Of};
ghost use Rattle.swc_tree_node.specs.Fits.{Fits};
ghost use Rattle.swc_tree_expressions.specs.Nodes.{of_assign_target};

use crate::assign_target_pat::AssignTargetPat;
use crate::simple_assign_target::SimpleAssignTarget;
use std::alloc::{AllocError, Global};
use swc_tree_handle::{Opened, Tree, class};
use swc_tree_node::{Kind, Node};

/// What a value is assigned to (ECMA-262, LeftHandSideExpression).
#[derive(Clone, Debug, Drop, PartialEq, Eq)]
pub enum AssignTarget {
    Simple(SimpleAssignTarget),
    Pat(AssignTargetPat),
}

impl Opened<class::AssignTarget> for AssignTarget {
    ghost class = { class.AssignTarget };

    ghost node = { of_assign_target };

    fn from_node(closed: Node) -> AssignTarget
        requires { Fits closed (One (Of class.AssignTarget)) }
        ensures { of_assign_target result ≡ closed }
    {
        let tree = Tree::<class::AssignTarget>::from_node(closed);
        match tree.kind() {
            Kind::BindingIdent | Kind::MemberExpr | Kind::SuperPropExpr | Kind::ParenExpr =>
                AssignTarget::Simple(tree.narrow::<class::SimpleAssignTarget>().open()),
            Kind::ArrayPat | Kind::ObjectPat => AssignTarget::Pat(
                tree.narrow::<class::AssignTargetPat>().open(),
            ),
            _ => unreachable!(),
        }
    }

    fn into_node(self, alloc: Global) -> Result<Node, AllocError>
        ensures { IfOk result (λ closed. (closed ≡ of_assign_target self) × Fits closed (One (Of class.AssignTarget))) }
    {
        match self {
            AssignTarget::Simple(opened) => opened.close_within::<class::AssignTarget>(alloc),
            AssignTarget::Pat(opened) => opened.close_within::<class::AssignTarget>(alloc),
        }
    }
}
