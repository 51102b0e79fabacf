//! Printed by tools/print_table.py from tools/tree.txt.
ghost use Rattle.std.specs.Prelude.{◌≡◌, IfOk};
ghost use Rattle.swc_tree_node.specs.declared.kind.Class.TheVariants as class;
ghost use Rattle.swc_tree_node.specs.declared.slot.Slot.TheVariants.{One};
ghost use Rattle.swc_tree_node.specs.declared.slot.Content.TheVariants.{Node as Of};
ghost use Rattle.swc_tree_node.specs.Fits.{Fits};
ghost use Rattle.swc_tree_functions.specs.Nodes.{method_prop_node};

use std::alloc::{AllocError, Global};
use swc_tree_handle::{Opened, Tree, class, clone_two, close_two, open_two};
use swc_tree_node::{Kind, Node};

/// A method of an object (ECMA-262, MethodDefinition).
#[derive(Debug, Drop, PartialEq, Eq)]
pub struct MethodProp {
    pub key: Tree<class::PropName>,
    pub function: Tree<class::Function>,
}

impl Clone for MethodProp {
    ghost is_clone = { λ it copy. copy ≡ it };

    fn clone(&self) -> Result<MethodProp, AllocError> {
        let (key, function) = clone_two(&self.key, &self.function)?;
        Ok(MethodProp { key, function })
    }
}

impl Opened<class::MethodProp> for MethodProp {
    ghost class = { class.MethodProp };

    ghost node = { method_prop_node };

    fn from_node(closed: Node) -> MethodProp
        requires { Fits closed (One (Of class.MethodProp)) }
        ensures { method_prop_node result ≡ closed }
    {
        let (key, function) = open_two::<class::MethodProp, _, _>(closed, Kind::MethodProp);
        MethodProp { key, function }
    }

    fn into_node(self, alloc: Global) -> Result<Node, AllocError>
        ensures { IfOk result (λ closed. (closed ≡ method_prop_node self) × Fits closed (One (Of class.MethodProp))) }
    {
        let MethodProp { key, function } = self;
        close_two::<class::MethodProp, _, _>(alloc, Kind::MethodProp, (key, function))
    }
}
