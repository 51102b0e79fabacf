//! Printed by tools/print_table.py from tools/tree.txt.
ghost use Rattle.std.specs.Prelude.{◌≡◌, IfOk};
ghost use Rattle.swc_tree_node.specs.declared.kind.Class.TheVariants as class;
ghost use Rattle.swc_tree_node.specs.declared.slot.Slot.TheVariants.{One};
ghost use Rattle.swc_tree_node.specs.declared.slot.Content.TheVariants.{Node as Of};
ghost use Rattle.swc_tree_node.specs.Fits.{Fits};
ghost use Rattle.swc_tree_types.specs.Nodes.{ts_union_type_node};

use std::alloc::{AllocError, Global};
use swc_tree_handle::{Opened, Trees, class, clone_two, close_two, open_two};
use swc_tree_marks::Span;
use swc_tree_node::{Kind, Node};

/// What is of one of some types.
#[derive(Debug, Drop, PartialEq, Eq)]
pub struct TsUnionType {
    pub span: Span,
    pub types: Trees<class::TsType>,
}

impl Clone for TsUnionType {
    ghost is_clone = { λ it copy. copy ≡ it };

    fn clone(&self) -> Result<TsUnionType, AllocError> {
        let (span, types) = clone_two(&self.span, &self.types)?;
        Ok(TsUnionType { span, types })
    }
}

impl Opened<class::TsUnionType> for TsUnionType {
    ghost class = { class.TsUnionType };

    ghost node = { ts_union_type_node };

    fn from_node(closed: Node) -> TsUnionType
        requires { Fits closed (One (Of class.TsUnionType)) }
        ensures { ts_union_type_node result ≡ closed }
    {
        let (span, types) = open_two::<class::TsUnionType, _, _>(closed, Kind::TsUnionType);
        TsUnionType { span, types }
    }

    fn into_node(self, alloc: Global) -> Result<Node, AllocError>
        ensures { IfOk result (λ closed. (closed ≡ ts_union_type_node self) × Fits closed (One (Of class.TsUnionType))) }
    {
        let TsUnionType { span, types } = self;
        close_two::<class::TsUnionType, _, _>(alloc, Kind::TsUnionType, (span, types))
    }
}
