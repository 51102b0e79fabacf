//! Printed by tools/print_table.py from tools/tree.txt.
ghost use Rattle.std.specs.Prelude.{◌≡◌, IfOk};
ghost use Rattle.swc_tree_node.specs.declared.kind.Class.TheVariants as class;
ghost use Rattle.swc_tree_node.specs.declared.slot.Slot.TheVariants.{One};
ghost use Rattle.swc_tree_node.specs.declared.slot.Content.TheVariants.{Node as Of};
ghost use Rattle.swc_tree_node.specs.Fits.{Fits};
ghost use Rattle.swc_tree_expressions.specs.Nodes.{of_member_prop};

use std::alloc::{AllocError, Global};
use swc_tree_functions::ComputedPropName;
use swc_tree_handle::{Opened, Tree, class};
use swc_tree_leaves::{IdentName, PrivateName};
use swc_tree_node::{Kind, Node};

/// What a member is called: a name, a private name or a computed key.
#[derive(Clone, Debug, Drop, PartialEq, Eq)]
pub enum MemberProp {
    Ident(IdentName),
    PrivateName(PrivateName),
    Computed(ComputedPropName),
}

impl Opened<class::MemberProp> for MemberProp {
    ghost class = { class.MemberProp };

    ghost node = { of_member_prop };

    fn from_node(closed: Node) -> MemberProp
        requires { Fits closed (One (Of class.MemberProp)) }
        ensures { of_member_prop result ≡ closed }
    {
        let tree = Tree::<class::MemberProp>::from_node(closed);
        match tree.kind() {
            Kind::IdentName => MemberProp::Ident(tree.narrow::<class::IdentName>().open()),
            Kind::PrivateName => MemberProp::PrivateName(
                tree.narrow::<class::PrivateName>().open(),
            ),
            Kind::ComputedPropName => MemberProp::Computed(
                tree.narrow::<class::ComputedPropName>().open(),
            ),
            _ => unreachable!(),
        }
    }

    fn into_node(self, alloc: Global) -> Result<Node, AllocError>
        ensures { IfOk result (λ closed. (closed ≡ of_member_prop self) × Fits closed (One (Of class.MemberProp))) }
    {
        match self {
            MemberProp::Ident(opened) => opened.close_within::<class::MemberProp>(alloc),
            MemberProp::PrivateName(opened) => opened.close_within::<class::MemberProp>(alloc),
            MemberProp::Computed(opened) => opened.close_within::<class::MemberProp>(alloc),
        }
    }
}
