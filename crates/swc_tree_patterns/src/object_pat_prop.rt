//! Printed by tools/print_table.py from tools/tree.txt.
ghost use Rattle.std.specs.Prelude.{◌≡◌, IfOk};
ghost use Rattle.swc_tree_node.specs.declared.kind.Class.TheVariants as class;
ghost use Rattle.swc_tree_node.specs.declared.slot.Slot.TheVariants.{One};
ghost use Rattle.swc_tree_node.specs.declared.slot.Content.TheVariants.{Node as Of};
ghost use Rattle.swc_tree_node.specs.Fits.{Fits};
ghost use Rattle.swc_tree_patterns.specs.Nodes.{of_object_pat_prop};

use crate::assign_pat_prop::AssignPatProp;
use crate::key_value_pat_prop::KeyValuePatProp;
use crate::rest_pat::RestPat;
use std::alloc::{AllocError, Global};
use swc_tree_handle::{Opened, Tree, class};
use swc_tree_node::{Kind, Node};

/// A property of a pattern (ECMA-262, BindingProperty).
#[derive(Clone, Debug, Drop, PartialEq, Eq)]
pub enum ObjectPatProp {
    KeyValue(KeyValuePatProp),
    Assign(AssignPatProp),
    Rest(RestPat),
}

impl Opened<class::ObjectPatProp> for ObjectPatProp {
    ghost class = { class.ObjectPatProp };

    ghost node = { of_object_pat_prop };

    fn from_node(closed: Node) -> ObjectPatProp
        requires { Fits closed (One (Of class.ObjectPatProp)) }
        ensures { of_object_pat_prop result ≡ closed }
    {
        let tree = Tree::<class::ObjectPatProp>::from_node(closed);
        match tree.kind() {
            Kind::KeyValuePatProp => ObjectPatProp::KeyValue(
                tree.narrow::<class::KeyValuePatProp>().open(),
            ),
            Kind::AssignPatProp => ObjectPatProp::Assign(
                tree.narrow::<class::AssignPatProp>().open(),
            ),
            Kind::RestPat => ObjectPatProp::Rest(tree.narrow::<class::RestPat>().open()),
            _ => unreachable!(),
        }
    }

    fn into_node(self, alloc: Global) -> Result<Node, AllocError>
        ensures { IfOk result (λ closed. (closed ≡ of_object_pat_prop self) × Fits closed (One (Of class.ObjectPatProp))) }
    {
        match self {
            ObjectPatProp::KeyValue(opened) => opened.close_within::<class::ObjectPatProp>(alloc),
            ObjectPatProp::Assign(opened) => opened.close_within::<class::ObjectPatProp>(alloc),
            ObjectPatProp::Rest(opened) => opened.close_within::<class::ObjectPatProp>(alloc),
        }
    }
}
