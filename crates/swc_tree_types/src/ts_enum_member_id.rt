//! Printed by tools/print_table.py from tools/tree.txt.
ghost use Rattle.std.specs.Prelude.{◌≡◌, IfOk};
ghost use Rattle.swc_tree_node.specs.declared.kind.Class.TheVariants as class;
ghost use Rattle.swc_tree_node.specs.declared.slot.Slot.TheVariants.{One};
ghost use Rattle.swc_tree_node.specs.declared.slot.Content.TheVariants.{Node as Of};
ghost use Rattle.swc_tree_node.specs.Fits.{Fits};
ghost use Rattle.swc_tree_types.specs.Nodes.{of_ts_enum_member_id};

use std::alloc::{AllocError, Global};
use swc_tree_handle::{Opened, Tree, class};
use swc_tree_leaves::{IdentName, Str};
use swc_tree_node::{Kind, Node};

/// What a member of an enum is called.
#[derive(Clone, Debug, Drop, PartialEq, Eq)]
pub enum TsEnumMemberId {
    Ident(IdentName),
    Str(Str),
}

impl Opened<class::TsEnumMemberId> for TsEnumMemberId {
    ghost class = { class.TsEnumMemberId };

    ghost node = { of_ts_enum_member_id };

    fn from_node(closed: Node) -> TsEnumMemberId
        requires { Fits closed (One (Of class.TsEnumMemberId)) }
        ensures { of_ts_enum_member_id result ≡ closed }
    {
        let tree = Tree::<class::TsEnumMemberId>::from_node(closed);
        match tree.kind() {
            Kind::IdentName => TsEnumMemberId::Ident(tree.narrow::<class::IdentName>().open()),
            Kind::Str => TsEnumMemberId::Str(tree.narrow::<class::Str>().open()),
            _ => unreachable!(),
        }
    }

    fn into_node(self, alloc: Global) -> Result<Node, AllocError>
        ensures { IfOk result (λ closed. (closed ≡ of_ts_enum_member_id self) × Fits closed (One (Of class.TsEnumMemberId))) }
    {
        match self {
            TsEnumMemberId::Ident(opened) => opened.close_within::<class::TsEnumMemberId>(alloc),
            TsEnumMemberId::Str(opened) => opened.close_within::<class::TsEnumMemberId>(alloc),
        }
    }
}
