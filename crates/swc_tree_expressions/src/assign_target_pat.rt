//! Printed by tools/print_table.py from tools/tree.txt.
ghost use Rattle.std.specs.Prelude.{◌≡◌, IfOk};
ghost use Rattle.swc_tree_node.specs.declared.kind.Class.TheVariants as class;
ghost use Rattle.swc_tree_node.specs.declared.slot.Slot.TheVariants.{One};
ghost use Rattle.swc_tree_node.specs.declared.slot.Content.TheVariants.{Node as Of};
ghost use Rattle.swc_tree_node.specs.Fits.{Fits};
ghost use Rattle.swc_tree_expressions.specs.Nodes.{of_assign_target_pat};

use std::alloc::{AllocError, Global};
use swc_tree_handle::{Opened, Tree, class};
use swc_tree_node::{Kind, Node};
use swc_tree_patterns::{ArrayPat, ObjectPat};

/// A target that is a pattern (ECMA-262, AssignmentPattern).
#[derive(Clone, Debug, Drop, PartialEq, Eq)]
pub enum AssignTargetPat {
    Array(ArrayPat),
    Object(ObjectPat),
}

impl Opened<class::AssignTargetPat> for AssignTargetPat {
    ghost class = { class.AssignTargetPat };

    ghost node = { of_assign_target_pat };

    fn from_node(closed: Node) -> AssignTargetPat
        requires { Fits closed (One (Of class.AssignTargetPat)) }
        ensures { of_assign_target_pat result ≡ closed }
    {
        let tree = Tree::<class::AssignTargetPat>::from_node(closed);
        match tree.kind() {
            Kind::ArrayPat => AssignTargetPat::Array(tree.narrow::<class::ArrayPat>().open()),
            Kind::ObjectPat => AssignTargetPat::Object(tree.narrow::<class::ObjectPat>().open()),
            _ => unreachable!(),
        }
    }

    fn into_node(self, alloc: Global) -> Result<Node, AllocError>
        ensures { IfOk result (λ closed. (closed ≡ of_assign_target_pat self) × Fits closed (One (Of class.AssignTargetPat))) }
    {
        match self {
            AssignTargetPat::Array(opened) => opened.close_within::<class::AssignTargetPat>(alloc),
            AssignTargetPat::Object(opened) => opened.close_within::<class::AssignTargetPat>(alloc),
        }
    }
}
