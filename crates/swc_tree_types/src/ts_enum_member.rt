//! Printed by tools/print_table.py from tools/tree.txt.
ghost use Rattle.std.specs.Prelude.{◌≡◌, IfOk};
ghost use Rattle.swc_tree_node.specs.declared.kind.Class.TheVariants as class;
ghost use Rattle.swc_tree_node.specs.declared.slot.Slot.TheVariants.{One};
ghost use Rattle.swc_tree_node.specs.declared.slot.Content.TheVariants.{Node as Of};
ghost use Rattle.swc_tree_node.specs.Fits.{Fits};
ghost use Rattle.swc_tree_types.specs.Nodes.{ts_enum_member_node};

use std::alloc::{AllocError, Global};
use swc_tree_handle::{Opened, Tree, class, clone_three, close_three, open_three};
use swc_tree_marks::Span;
use swc_tree_node::{Kind, Node};

/// One value of an enum.
#[derive(Debug, Drop, PartialEq, Eq)]
pub struct TsEnumMember {
    pub span: Span,
    pub id: Tree<class::TsEnumMemberId>,
    pub init: Option<Tree<class::Expr>>,
}

impl Clone for TsEnumMember {
    ghost is_clone = { λ it copy. copy ≡ it };

    fn clone(&self) -> Result<TsEnumMember, AllocError> {
        let (span, id, init) = clone_three(&self.span, &self.id, &self.init)?;
        Ok(TsEnumMember { span, id, init })
    }
}

impl Opened<class::TsEnumMember> for TsEnumMember {
    ghost class = { class.TsEnumMember };

    ghost node = { ts_enum_member_node };

    fn from_node(closed: Node) -> TsEnumMember
        requires { Fits closed (One (Of class.TsEnumMember)) }
        ensures { ts_enum_member_node result ≡ closed }
    {
        let (span, id, init) = open_three::<class::TsEnumMember, _, _, _>(
            closed,
            Kind::TsEnumMember,
        );
        TsEnumMember { span, id, init }
    }

    fn into_node(self, alloc: Global) -> Result<Node, AllocError>
        ensures { IfOk result (λ closed. (closed ≡ ts_enum_member_node self) × Fits closed (One (Of class.TsEnumMember))) }
    {
        let TsEnumMember { span, id, init } = self;
        close_three::<class::TsEnumMember, _, _, _>(alloc, Kind::TsEnumMember, (span, id, init))
    }
}
