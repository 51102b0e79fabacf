//! Printed by tools/print_table.py from tools/tree.txt.
ghost use Rattle.std.specs.Prelude.{◌≡◌, IfOk};
ghost use Rattle.swc_tree_node.specs.declared.kind.Class.TheVariants as class;
ghost use Rattle.swc_tree_node.specs.declared.slot.Slot.TheVariants.{One};
ghost use Rattle.swc_tree_node.specs.declared.slot.Content.TheVariants.{Node as Of};
ghost use Rattle.swc_tree_node.specs.Fits.{Fits};
ghost use Rattle.swc_tree_types.specs.Nodes.{of_ts_entity_name};

use crate::ts_qualified_name::TsQualifiedName;
use std::alloc::{AllocError, Global};
use swc_tree_handle::{Opened, Tree, class};
use swc_tree_marks::Ident;
use swc_tree_node::{Kind, Node};

/// The name of a type.
#[derive(Clone, Debug, Drop, PartialEq, Eq)]
pub enum TsEntityName {
    Ident(Ident),
    TsQualifiedName(TsQualifiedName),
}

impl Opened<class::TsEntityName> for TsEntityName {
    ghost class = { class.TsEntityName };

    ghost node = { of_ts_entity_name };

    fn from_node(closed: Node) -> TsEntityName
        requires { Fits closed (One (Of class.TsEntityName)) }
        ensures { of_ts_entity_name result ≡ closed }
    {
        let tree = Tree::<class::TsEntityName>::from_node(closed);
        match tree.kind() {
            Kind::Ident => TsEntityName::Ident(tree.narrow::<class::Ident>().open()),
            Kind::TsQualifiedName => TsEntityName::TsQualifiedName(
                tree.narrow::<class::TsQualifiedName>().open(),
            ),
            _ => unreachable!(),
        }
    }

    fn into_node(self, alloc: Global) -> Result<Node, AllocError>
        ensures { IfOk result (λ closed. (closed ≡ of_ts_entity_name self) × Fits closed (One (Of class.TsEntityName))) }
    {
        match self {
            TsEntityName::Ident(opened) => opened.close_within::<class::TsEntityName>(alloc),
            TsEntityName::TsQualifiedName(opened) => opened.close_within::<class::TsEntityName>(
                alloc,
            ),
        }
    }
}
