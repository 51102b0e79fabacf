//! Printed by tools/print_table.py from tools/tree.txt.
ghost use Rattle.std.specs.Prelude.{◌≡◌, IfOk};
ghost use Rattle.swc_tree_node.specs.declared.kind.Class.TheVariants as class;
ghost use Rattle.swc_tree_node.specs.declared.slot.Slot.TheVariants.{One};
ghost use Rattle.swc_tree_node.specs.declared.slot.Content.TheVariants.{Node as Of};
ghost use Rattle.swc_tree_node.specs.Fits.{Fits};
ghost use Rattle.swc_tree_types.specs.Nodes.{ts_array_type_node};

use std::alloc::{AllocError, Global};
use swc_tree_handle::{Opened, Tree, class, clone_two, close_two, open_two};
use swc_tree_marks::Span;
use swc_tree_node::{Kind, Node};

/// The type of arrays of a type.
#[derive(Debug, Drop, PartialEq, Eq)]
pub struct TsArrayType {
    pub span: Span,
    pub elem: Tree<class::TsType>,
}

impl Clone for TsArrayType {
    ghost is_clone = { λ it copy. copy ≡ it };

    fn clone(&self) -> Result<TsArrayType, AllocError> {
        let (span, elem) = clone_two(&self.span, &self.elem)?;
        Ok(TsArrayType { span, elem })
    }
}

impl Opened<class::TsArrayType> for TsArrayType {
    ghost class = { class.TsArrayType };

    ghost node = { ts_array_type_node };

    fn from_node(closed: Node) -> TsArrayType
        requires { Fits closed (One (Of class.TsArrayType)) }
        ensures { ts_array_type_node result ≡ closed }
    {
        let (span, elem) = open_two::<class::TsArrayType, _, _>(closed, Kind::TsArrayType);
        TsArrayType { span, elem }
    }

    fn into_node(self, alloc: Global) -> Result<Node, AllocError>
        ensures { IfOk result (λ closed. (closed ≡ ts_array_type_node self) × Fits closed (One (Of class.TsArrayType))) }
    {
        let TsArrayType { span, elem } = self;
        close_two::<class::TsArrayType, _, _>(alloc, Kind::TsArrayType, (span, elem))
    }
}
