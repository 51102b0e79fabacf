//! Printed by tools/print_table.py from tools/tree.txt.
ghost use Rattle.std.specs.Prelude.{◌≡◌, IfOk};
ghost use Rattle.swc_tree_node.specs.declared.kind.Class.TheVariants as class;
ghost use Rattle.swc_tree_node.specs.declared.slot.Slot.TheVariants.{One};
ghost use Rattle.swc_tree_node.specs.declared.slot.Content.TheVariants.{Node as Of};
ghost use Rattle.swc_tree_node.specs.Fits.{Fits};
ghost use Rattle.swc_tree_patterns.specs.Nodes.{key_value_pat_prop_node};

use std::alloc::{AllocError, Global};
use swc_tree_handle::{Opened, Tree, class, clone_two, close_two, open_two};
use swc_tree_node::{Kind, Node};

/// A key and a pattern for its value (ECMA-262, BindingProperty).
#[derive(Debug, Drop, PartialEq, Eq)]
pub struct KeyValuePatProp {
    pub key: Tree<class::PropName>,
    pub value: Tree<class::Pat>,
}

impl Clone for KeyValuePatProp {
    ghost is_clone = { λ it copy. copy ≡ it };

    fn clone(&self) -> Result<KeyValuePatProp, AllocError> {
        let (key, value) = clone_two(&self.key, &self.value)?;
        Ok(KeyValuePatProp { key, value })
    }
}

impl Opened<class::KeyValuePatProp> for KeyValuePatProp {
    ghost class = { class.KeyValuePatProp };

    ghost node = { key_value_pat_prop_node };

    fn from_node(closed: Node) -> KeyValuePatProp
        requires { Fits closed (One (Of class.KeyValuePatProp)) }
        ensures { key_value_pat_prop_node result ≡ closed }
    {
        let (key, value) = open_two::<class::KeyValuePatProp, _, _>(closed, Kind::KeyValuePatProp);
        KeyValuePatProp { key, value }
    }

    fn into_node(self, alloc: Global) -> Result<Node, AllocError>
        ensures { IfOk result (λ closed. (closed ≡ key_value_pat_prop_node self) × Fits closed (One (Of class.KeyValuePatProp))) }
    {
        let KeyValuePatProp { key, value } = self;
        close_two::<class::KeyValuePatProp, _, _>(alloc, Kind::KeyValuePatProp, (key, value))
    }
}
