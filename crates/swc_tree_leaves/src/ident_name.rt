//! Printed by tools/print_table.py from tools/tree.txt.
ghost use Rattle.std.specs.Prelude.{◌≡◌, IfOk};
ghost use Rattle.swc_tree_node.specs.declared.kind.Class.TheVariants as class;
ghost use Rattle.swc_tree_node.specs.declared.slot.Slot.TheVariants.{One};
ghost use Rattle.swc_tree_node.specs.declared.slot.Content.TheVariants.{Node as Of};
ghost use Rattle.swc_tree_node.specs.Fits.{Fits};
ghost use Rattle.swc_tree_leaves.specs.Nodes.{ident_name_node};

use std::alloc::{AllocError, Global};
use swc_tree_handle::{Opened, Place, class, clone_two, close_two, open_two};
use swc_tree_marks::{Atom, Span};
use swc_tree_node::{Kind, Node};

/// A name that is no identifier, as a key (ECMA-262, IdentifierName).
#[derive(Debug, Drop, PartialEq, Eq)]
pub struct IdentName {
    pub span: Span,
    pub sym: Atom,
}

impl Clone for IdentName {
    ghost is_clone = { λ it copy. copy ≡ it };

    fn clone(&self) -> Result<IdentName, AllocError> {
        let (span, sym) = clone_two(&self.span, &self.sym)?;
        Ok(IdentName { span, sym })
    }
}

impl Opened<class::IdentName> for IdentName {
    ghost class = { class.IdentName };

    ghost node = { ident_name_node };

    fn from_node(closed: Node) -> IdentName
        requires { Fits closed (One (Of class.IdentName)) }
        ensures { ident_name_node result ≡ closed }
    {
        let (span, sym) = open_two::<class::IdentName, _, _>(closed, Kind::IdentName);
        IdentName { span, sym }
    }

    fn into_node(self, alloc: Global) -> Result<Node, AllocError>
        ensures { IfOk result (λ closed. (closed ≡ ident_name_node self) × Fits closed (One (Of class.IdentName))) }
    {
        let IdentName { span, sym } = self;
        close_two::<class::IdentName, _, _>(alloc, Kind::IdentName, (span, sym))
    }
}

impl Place for IdentName {
    ghost slot = { One (Of class.IdentName) };

    ghost node = { ident_name_node };

    fn taken(closed: Node) -> IdentName {
        IdentName::from_node(closed)
    }

    fn given(self, alloc: Global) -> Result<Node, AllocError> {
        self.into_node(alloc)
    }
}
