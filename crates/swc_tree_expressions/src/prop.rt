//! Printed by tools/print_table.py from tools/tree.txt.
ghost use Rattle.std.specs.Prelude.{◌≡◌, IfOk};
ghost use Rattle.swc_tree_node.specs.declared.kind.Class.TheVariants as class;
ghost use Rattle.swc_tree_node.specs.declared.slot.Slot.TheVariants.{One};
ghost use Rattle.swc_tree_node.specs.declared.slot.Content.TheVariants.{Node as Of};
ghost use Rattle.swc_tree_node.specs.Fits.{Fits};
ghost use Rattle.swc_tree_expressions.specs.Nodes.{of_prop};

use std::alloc::{AllocError, Global};
use swc_tree_functions::{GetterProp, MethodProp, SetterProp};
use swc_tree_handle::{Opened, Tree, class};
use swc_tree_marks::Ident;
use swc_tree_node::{Kind, Node};
use swc_tree_operations::KeyValueProp;

/// A property of an object literal (ECMA-262, PropertyDefinition).
#[derive(Clone, Debug, Drop, PartialEq, Eq)]
pub enum Prop {
    Shorthand(Ident),
    KeyValue(KeyValueProp),
    Getter(GetterProp),
    Setter(SetterProp),
    Method(MethodProp),
}

impl Opened<class::Prop> for Prop {
    ghost class = { class.Prop };

    ghost node = { of_prop };

    fn from_node(closed: Node) -> Prop
        requires { Fits closed (One (Of class.Prop)) }
        ensures { of_prop result ≡ closed }
    {
        let tree = Tree::<class::Prop>::from_node(closed);
        match tree.kind() {
            Kind::Ident => Prop::Shorthand(tree.narrow::<class::Ident>().open()),
            Kind::KeyValueProp => Prop::KeyValue(tree.narrow::<class::KeyValueProp>().open()),
            Kind::GetterProp => Prop::Getter(tree.narrow::<class::GetterProp>().open()),
            Kind::SetterProp => Prop::Setter(tree.narrow::<class::SetterProp>().open()),
            Kind::MethodProp => Prop::Method(tree.narrow::<class::MethodProp>().open()),
            _ => unreachable!(),
        }
    }

    fn into_node(self, alloc: Global) -> Result<Node, AllocError>
        ensures { IfOk result (λ closed. (closed ≡ of_prop self) × Fits closed (One (Of class.Prop))) }
    {
        match self {
            Prop::Shorthand(opened) => opened.close_within::<class::Prop>(alloc),
            Prop::KeyValue(opened) => opened.close_within::<class::Prop>(alloc),
            Prop::Getter(opened) => opened.close_within::<class::Prop>(alloc),
            Prop::Setter(opened) => opened.close_within::<class::Prop>(alloc),
            Prop::Method(opened) => opened.close_within::<class::Prop>(alloc),
        }
    }
}
