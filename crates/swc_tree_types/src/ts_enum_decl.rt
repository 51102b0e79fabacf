//! Printed by tools/print_table.py from tools/tree.txt.
ghost use Rattle.std.specs.Prelude.{◌≡◌, IfOk};
ghost use Rattle.swc_tree_node.specs.declared.kind.Class.TheVariants as class;
ghost use Rattle.swc_tree_node.specs.declared.slot.Slot.TheVariants.{One};
ghost use Rattle.swc_tree_node.specs.declared.slot.Content.TheVariants.{Node as Of};
ghost use Rattle.swc_tree_node.specs.Fits.{Fits};
ghost use Rattle.swc_tree_types.specs.Nodes.{ts_enum_decl_node};

use std::alloc::{AllocError, Global};
use swc_tree_handle::{Opened, Trees, class, clone_three, close_three, open_three};
use swc_tree_marks::{Ident, Span};
use swc_tree_node::{Kind, Node};

/// An enum: values under names.
#[derive(Debug, Drop, PartialEq, Eq)]
pub struct TsEnumDecl {
    pub span: Span,
    pub id: Ident,
    pub members: Trees<class::TsEnumMember>,
}

impl Clone for TsEnumDecl {
    ghost is_clone = { λ it copy. copy ≡ it };

    fn clone(&self) -> Result<TsEnumDecl, AllocError> {
        let (span, id, members) = clone_three(&self.span, &self.id, &self.members)?;
        Ok(TsEnumDecl { span, id, members })
    }
}

impl Opened<class::TsEnumDecl> for TsEnumDecl {
    ghost class = { class.TsEnumDecl };

    ghost node = { ts_enum_decl_node };

    fn from_node(closed: Node) -> TsEnumDecl
        requires { Fits closed (One (Of class.TsEnumDecl)) }
        ensures { ts_enum_decl_node result ≡ closed }
    {
        let (span, id, members) = open_three::<class::TsEnumDecl, _, _, _>(
            closed,
            Kind::TsEnumDecl,
        );
        TsEnumDecl { span, id, members }
    }

    fn into_node(self, alloc: Global) -> Result<Node, AllocError>
        ensures { IfOk result (λ closed. (closed ≡ ts_enum_decl_node self) × Fits closed (One (Of class.TsEnumDecl))) }
    {
        let TsEnumDecl { span, id, members } = self;
        close_three::<class::TsEnumDecl, _, _, _>(alloc, Kind::TsEnumDecl, (span, id, members))
    }
}
