//! Printed by tools/print_table.py from tools/tree.txt.
ghost use Rattle.std.specs.Prelude.{◌≡◌, IfOk};
ghost use Rattle.swc_tree_node.specs.declared.kind.Class.TheVariants as class;
ghost use Rattle.swc_tree_node.specs.declared.slot.Slot.TheVariants.{One};
ghost use Rattle.swc_tree_node.specs.declared.slot.Content.TheVariants.{Node as Of};
ghost use Rattle.swc_tree_node.specs.Fits.{Fits};
ghost use Rattle.swc_tree_functions.specs.Nodes.{of_prop_name};

use crate::computed_prop_name::ComputedPropName;
use std::alloc::{AllocError, Global};
use swc_tree_handle::{Opened, Tree, class};
use swc_tree_leaves::{BigInt, IdentName, Number, Str};
use swc_tree_node::{Kind, Node};

/// The key of a property (ECMA-262, PropertyName).
#[derive(Clone, Debug, Drop, PartialEq, Eq)]
pub enum PropName {
    Ident(IdentName),
    Str(Str),
    Num(Number),
    Computed(ComputedPropName),
    BigInt(BigInt),
}

impl Opened<class::PropName> for PropName {
    ghost class = { class.PropName };

    ghost node = { of_prop_name };

    fn from_node(closed: Node) -> PropName
        requires { Fits closed (One (Of class.PropName)) }
        ensures { of_prop_name result ≡ closed }
    {
        let tree = Tree::<class::PropName>::from_node(closed);
        match tree.kind() {
            Kind::IdentName => PropName::Ident(tree.narrow::<class::IdentName>().open()),
            Kind::Str => PropName::Str(tree.narrow::<class::Str>().open()),
            Kind::Number => PropName::Num(tree.narrow::<class::Number>().open()),
            Kind::ComputedPropName => PropName::Computed(
                tree.narrow::<class::ComputedPropName>().open(),
            ),
            Kind::BigInt => PropName::BigInt(tree.narrow::<class::BigInt>().open()),
            _ => unreachable!(),
        }
    }

    fn into_node(self, alloc: Global) -> Result<Node, AllocError>
        ensures { IfOk result (λ closed. (closed ≡ of_prop_name self) × Fits closed (One (Of class.PropName))) }
    {
        match self {
            PropName::Ident(opened) => opened.close_within::<class::PropName>(alloc),
            PropName::Str(opened) => opened.close_within::<class::PropName>(alloc),
            PropName::Num(opened) => opened.close_within::<class::PropName>(alloc),
            PropName::Computed(opened) => opened.close_within::<class::PropName>(alloc),
            PropName::BigInt(opened) => opened.close_within::<class::PropName>(alloc),
        }
    }
}
