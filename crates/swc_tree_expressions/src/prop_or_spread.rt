//! Printed by tools/print_table.py from tools/tree.txt.
ghost use Rattle.std.specs.Prelude.{◌≡◌, IfOk};
ghost use Rattle.swc_tree_node.specs.declared.kind.Class.TheVariants as class;
ghost use Rattle.swc_tree_node.specs.declared.slot.Slot.TheVariants.{One};
ghost use Rattle.swc_tree_node.specs.declared.slot.Content.TheVariants.{Node as Of};
ghost use Rattle.swc_tree_node.specs.Fits.{Fits};
ghost use Rattle.swc_tree_expressions.specs.Nodes.{of_prop_or_spread};

use crate::prop::Prop;
use std::alloc::{AllocError, Global};
use swc_tree_handle::{Opened, Tree, class};
use swc_tree_node::{Kind, Node};
use swc_tree_operations::SpreadElement;

/// A property of an object literal, or a spread (ECMA-262, PropertyDefinition).
#[derive(Clone, Debug, Drop, PartialEq, Eq)]
pub enum PropOrSpread {
    Spread(SpreadElement),
    Prop(Prop),
}

impl Opened<class::PropOrSpread> for PropOrSpread {
    ghost class = { class.PropOrSpread };

    ghost node = { of_prop_or_spread };

    fn from_node(closed: Node) -> PropOrSpread
        requires { Fits closed (One (Of class.PropOrSpread)) }
        ensures { of_prop_or_spread result ≡ closed }
    {
        let tree = Tree::<class::PropOrSpread>::from_node(closed);
        match tree.kind() {
            Kind::SpreadElement => PropOrSpread::Spread(
                tree.narrow::<class::SpreadElement>().open(),
            ),
            Kind::Ident
            | Kind::KeyValueProp
            | Kind::GetterProp
            | Kind::SetterProp
            | Kind::MethodProp => PropOrSpread::Prop(tree.narrow::<class::Prop>().open()),
            _ => unreachable!(),
        }
    }

    fn into_node(self, alloc: Global) -> Result<Node, AllocError>
        ensures { IfOk result (λ closed. (closed ≡ of_prop_or_spread self) × Fits closed (One (Of class.PropOrSpread))) }
    {
        match self {
            PropOrSpread::Spread(opened) => opened.close_within::<class::PropOrSpread>(alloc),
            PropOrSpread::Prop(opened) => opened.close_within::<class::PropOrSpread>(alloc),
        }
    }
}
