//! Printed by tools/print_table.py from tools/tree.txt.
ghost use Rattle.std.specs.Prelude.{◌≡◌, IfOk};
ghost use Rattle.swc_tree_node.specs.declared.kind.Class.TheVariants as class;
ghost use Rattle.swc_tree_node.specs.declared.slot.Slot.TheVariants.{One};
ghost use Rattle.swc_tree_node.specs.declared.slot.Content.TheVariants.{Node as Of};
ghost use Rattle.swc_tree_node.specs.Fits.{Fits};
ghost use Rattle.swc_tree_expressions.specs.Nodes.{of_simple_assign_target};

use std::alloc::{AllocError, Global};
use swc_tree_handle::{Opened, Tree, class};
use swc_tree_leaves::BindingIdent;
use swc_tree_node::{Kind, Node};
use swc_tree_operations::{MemberExpr, ParenExpr, SuperPropExpr};

/// A target that is no pattern.
#[derive(Clone, Debug, Drop, PartialEq, Eq)]
pub enum SimpleAssignTarget {
    Ident(BindingIdent),
    Member(MemberExpr),
    SuperProp(SuperPropExpr),
    Paren(ParenExpr),
}

impl Opened<class::SimpleAssignTarget> for SimpleAssignTarget {
    ghost class = { class.SimpleAssignTarget };

    ghost node = { of_simple_assign_target };

    fn from_node(closed: Node) -> SimpleAssignTarget
        requires { Fits closed (One (Of class.SimpleAssignTarget)) }
        ensures { of_simple_assign_target result ≡ closed }
    {
        let tree = Tree::<class::SimpleAssignTarget>::from_node(closed);
        match tree.kind() {
            Kind::BindingIdent => SimpleAssignTarget::Ident(
                tree.narrow::<class::BindingIdent>().open(),
            ),
            Kind::MemberExpr => SimpleAssignTarget::Member(
                tree.narrow::<class::MemberExpr>().open(),
            ),
            Kind::SuperPropExpr => SimpleAssignTarget::SuperProp(
                tree.narrow::<class::SuperPropExpr>().open(),
            ),
            Kind::ParenExpr => SimpleAssignTarget::Paren(tree.narrow::<class::ParenExpr>().open()),
            _ => unreachable!(),
        }
    }

    fn into_node(self, alloc: Global) -> Result<Node, AllocError>
        ensures { IfOk result (λ closed. (closed ≡ of_simple_assign_target self) × Fits closed (One (Of class.SimpleAssignTarget))) }
    {
        match self {
            SimpleAssignTarget::Ident(opened) => opened.close_within::<class::SimpleAssignTarget>(
                alloc,
            ),
            SimpleAssignTarget::Member(opened) => opened.close_within::<class::SimpleAssignTarget>(
                alloc,
            ),
            SimpleAssignTarget::SuperProp(opened) => opened.close_within::<
                class::SimpleAssignTarget,
            >(alloc),
            SimpleAssignTarget::Paren(opened) => opened.close_within::<class::SimpleAssignTarget>(
                alloc,
            ),
        }
    }
}
