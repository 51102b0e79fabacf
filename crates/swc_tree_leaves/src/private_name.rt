//! Printed by tools/print_table.py from tools/tree.txt.
ghost use Rattle.std.specs.Prelude.{◌≡◌, IfOk};
ghost use Rattle.swc_tree_node.specs.declared.kind.Class.TheVariants as class;
ghost use Rattle.swc_tree_node.specs.declared.slot.Slot.TheVariants.{One};
ghost use Rattle.swc_tree_node.specs.declared.slot.Content.TheVariants.{Node as Of};
ghost use Rattle.swc_tree_node.specs.Fits.{Fits};
ghost use Rattle.swc_tree_leaves.specs.Nodes.{private_name_node};

use std::alloc::{AllocError, Global};
use swc_tree_handle::{Opened, Place, class, clone_two, close_two, open_two};
use swc_tree_marks::{Atom, Span};
use swc_tree_node::{Kind, Node};

/// A private name, without its `#` (ECMA-262, PrivateIdentifier).
#[derive(Debug, Drop, PartialEq, Eq)]
pub struct PrivateName {
    pub span: Span,
    pub name: Atom,
}

impl Clone for PrivateName {
    ghost is_clone = { λ it copy. copy ≡ it };

    fn clone(&self) -> Result<PrivateName, AllocError> {
        let (span, name) = clone_two(&self.span, &self.name)?;
        Ok(PrivateName { span, name })
    }
}

impl Opened<class::PrivateName> for PrivateName {
    ghost class = { class.PrivateName };

    ghost node = { private_name_node };

    fn from_node(closed: Node) -> PrivateName
        requires { Fits closed (One (Of class.PrivateName)) }
        ensures { private_name_node result ≡ closed }
    {
        let (span, name) = open_two::<class::PrivateName, _, _>(closed, Kind::PrivateName);
        PrivateName { span, name }
    }

    fn into_node(self, alloc: Global) -> Result<Node, AllocError>
        ensures { IfOk result (λ closed. (closed ≡ private_name_node self) × Fits closed (One (Of class.PrivateName))) }
    {
        let PrivateName { span, name } = self;
        close_two::<class::PrivateName, _, _>(alloc, Kind::PrivateName, (span, name))
    }
}

impl Place for PrivateName {
    ghost slot = { One (Of class.PrivateName) };

    ghost node = { private_name_node };

    fn taken(closed: Node) -> PrivateName {
        PrivateName::from_node(closed)
    }

    fn given(self, alloc: Global) -> Result<Node, AllocError> {
        self.into_node(alloc)
    }
}
