//! Printed by tools/print_table.py from tools/tree.txt.
ghost use Rattle.std.specs.Prelude.{◌≡◌, IfOk};
ghost use Rattle.swc_tree_node.specs.declared.kind.Class.TheVariants as class;
ghost use Rattle.swc_tree_node.specs.declared.slot.Slot.TheVariants.{One};
ghost use Rattle.swc_tree_node.specs.declared.slot.Content.TheVariants.{Node as Of};
ghost use Rattle.swc_tree_node.specs.Fits.{Fits};
ghost use Rattle.swc_tree_types.specs.Nodes.{of_ts_type};

use crate::ts_array_type::TsArrayType;
use crate::ts_keyword_type::TsKeywordType;
use crate::ts_type_lit::TsTypeLit;
use crate::ts_type_ref::TsTypeRef;
use crate::ts_union_type::TsUnionType;
use std::alloc::{AllocError, Global};
use swc_tree_handle::{Opened, Tree, class};
use swc_tree_node::{Kind, Node};

/// A type.
#[derive(Clone, Debug, Drop, PartialEq, Eq)]
pub enum TsType {
    TsKeywordType(TsKeywordType),
    TsTypeRef(TsTypeRef),
    TsArrayType(TsArrayType),
    TsUnionType(TsUnionType),
    TsTypeLit(TsTypeLit),
}

impl Opened<class::TsType> for TsType {
    ghost class = { class.TsType };

    ghost node = { of_ts_type };

    fn from_node(closed: Node) -> TsType
        requires { Fits closed (One (Of class.TsType)) }
        ensures { of_ts_type result ≡ closed }
    {
        let tree = Tree::<class::TsType>::from_node(closed);
        match tree.kind() {
            Kind::TsKeywordType => TsType::TsKeywordType(
                tree.narrow::<class::TsKeywordType>().open(),
            ),
            Kind::TsTypeRef => TsType::TsTypeRef(tree.narrow::<class::TsTypeRef>().open()),
            Kind::TsArrayType => TsType::TsArrayType(tree.narrow::<class::TsArrayType>().open()),
            Kind::TsUnionType => TsType::TsUnionType(tree.narrow::<class::TsUnionType>().open()),
            Kind::TsTypeLit => TsType::TsTypeLit(tree.narrow::<class::TsTypeLit>().open()),
            _ => unreachable!(),
        }
    }

    fn into_node(self, alloc: Global) -> Result<Node, AllocError>
        ensures { IfOk result (λ closed. (closed ≡ of_ts_type self) × Fits closed (One (Of class.TsType))) }
    {
        match self {
            TsType::TsKeywordType(opened) => opened.close_within::<class::TsType>(alloc),
            TsType::TsTypeRef(opened) => opened.close_within::<class::TsType>(alloc),
            TsType::TsArrayType(opened) => opened.close_within::<class::TsType>(alloc),
            TsType::TsUnionType(opened) => opened.close_within::<class::TsType>(alloc),
            TsType::TsTypeLit(opened) => opened.close_within::<class::TsType>(alloc),
        }
    }
}
