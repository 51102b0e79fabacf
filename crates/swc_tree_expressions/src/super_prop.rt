//! Printed by tools/print_table.py from tools/tree.txt.
ghost use Rattle.std.specs.Prelude.{◌≡◌, IfOk};
ghost use Rattle.swc_tree_node.specs.declared.kind.Class.TheVariants as class;
ghost use Rattle.swc_tree_node.specs.declared.slot.Slot.TheVariants.{One};
ghost use Rattle.swc_tree_node.specs.declared.slot.Content.TheVariants.{Node as Of};
ghost use Rattle.swc_tree_node.specs.Fits.{Fits};
ghost use Rattle.swc_tree_expressions.specs.Nodes.{of_super_prop};

use std::alloc::{AllocError, Global};
use swc_tree_functions::ComputedPropName;
use swc_tree_handle::{Opened, Tree, class};
use swc_tree_leaves::IdentName;
use swc_tree_node::{Kind, Node};

/// What a property of `super` is called.
#[derive(Clone, Debug, Drop, PartialEq, Eq)]
pub enum SuperProp {
    Ident(IdentName),
    Computed(ComputedPropName),
}

impl Opened<class::SuperProp> for SuperProp {
    ghost class = { class.SuperProp };

    ghost node = { of_super_prop };

    fn from_node(closed: Node) -> SuperProp
        requires { Fits closed (One (Of class.SuperProp)) }
        ensures { of_super_prop result ≡ closed }
    {
        let tree = Tree::<class::SuperProp>::from_node(closed);
        match tree.kind() {
            Kind::IdentName => SuperProp::Ident(tree.narrow::<class::IdentName>().open()),
            Kind::ComputedPropName => SuperProp::Computed(
                tree.narrow::<class::ComputedPropName>().open(),
            ),
            _ => unreachable!(),
        }
    }

    fn into_node(self, alloc: Global) -> Result<Node, AllocError>
        ensures { IfOk result (λ closed. (closed ≡ of_super_prop self) × Fits closed (One (Of class.SuperProp))) }
    {
        match self {
            SuperProp::Ident(opened) => opened.close_within::<class::SuperProp>(alloc),
            SuperProp::Computed(opened) => opened.close_within::<class::SuperProp>(alloc),
        }
    }
}
