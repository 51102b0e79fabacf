//! Printed by tools/print_table.py from tools/tree.txt.
ghost use Rattle.std.specs.Prelude.{◌≡◌, IfOk};
ghost use Rattle.swc_tree_node.specs.declared.kind.Class.TheVariants as class;
ghost use Rattle.swc_tree_node.specs.declared.slot.Slot.TheVariants.{One};
ghost use Rattle.swc_tree_node.specs.declared.slot.Content.TheVariants.{Node as Of};
ghost use Rattle.swc_tree_node.specs.Fits.{Fits};
ghost use Rattle.swc_tree_operations.specs.Nodes.{key_value_prop_node};

use std::alloc::{AllocError, Global};
use swc_tree_handle::{Opened, Tree, class, clone_two, close_two, open_two};
use swc_tree_node::{Kind, Node};

/// A key and its value (ECMA-262, PropertyDefinition).
#[derive(Debug, Drop, PartialEq, Eq)]
pub struct KeyValueProp {
    pub key: Tree<class::PropName>,
    pub value: Tree<class::Expr>,
}

impl Clone for KeyValueProp {
    ghost is_clone = { λ it copy. copy ≡ it };

    fn clone(&self) -> Result<KeyValueProp, AllocError> {
        let (key, value) = clone_two(&self.key, &self.value)?;
        Ok(KeyValueProp { key, value })
    }
}

impl Opened<class::KeyValueProp> for KeyValueProp {
    ghost class = { class.KeyValueProp };

    ghost node = { key_value_prop_node };

    fn from_node(closed: Node) -> KeyValueProp
        requires { Fits closed (One (Of class.KeyValueProp)) }
        ensures { key_value_prop_node result ≡ closed }
    {
        let (key, value) = open_two::<class::KeyValueProp, _, _>(closed, Kind::KeyValueProp);
        KeyValueProp { key, value }
    }

    fn into_node(self, alloc: Global) -> Result<Node, AllocError>
        ensures { IfOk result (λ closed. (closed ≡ key_value_prop_node self) × Fits closed (One (Of class.KeyValueProp))) }
    {
        let KeyValueProp { key, value } = self;
        close_two::<class::KeyValueProp, _, _>(alloc, Kind::KeyValueProp, (key, value))
    }
}
