//! Printed by tools/print_table.py from tools/tree.txt.
ghost use Rattle.std.specs.Prelude.{◌≡◌, IfOk};
ghost use Rattle.swc_tree_node.specs.declared.kind.Class.TheVariants as class;
ghost use Rattle.swc_tree_node.specs.declared.slot.Slot.TheVariants.{One};
ghost use Rattle.swc_tree_node.specs.declared.slot.Content.TheVariants.{Node as Of};
ghost use Rattle.swc_tree_node.specs.Fits.{Fits};
ghost use Rattle.swc_tree_leaves.specs.Nodes.{binding_ident_node};

use std::alloc::{AllocError, Global};
use swc_tree_handle::{Opened, Place, Tree, class};
use swc_tree_marks::Ident;
use swc_tree_node::{Kind, Node};

/// An identifier that a pattern binds (ECMA-262, BindingIdentifier).
#[derive(Clone, Debug, Drop, PartialEq, Eq, Hash)]
pub struct BindingIdent {
    pub id: Ident,
}

impl Opened<class::BindingIdent> for BindingIdent {
    ghost class = { class.BindingIdent };

    ghost node = { binding_ident_node };

    fn from_node(closed: Node) -> BindingIdent
        requires { Fits closed (One (Of class.BindingIdent)) }
        ensures { binding_ident_node result ≡ closed }
    {
        BindingIdent {
            id: Tree::<class::BindingIdent>::from_node(closed).into_identifier(Kind::BindingIdent),
        }
    }

    fn into_node(self, alloc: Global) -> Result<Node, AllocError>
        ensures { IfOk result (λ closed. (closed ≡ binding_ident_node self) × Fits closed (One (Of class.BindingIdent))) }
    {
        let tree = Tree::<class::BindingIdent>::from_identifier(
            alloc,
            Kind::BindingIdent,
            self.id,
        )?;
        Ok(tree.into_node())
    }
}

impl Place for BindingIdent {
    ghost slot = { One (Of class.BindingIdent) };

    ghost node = { binding_ident_node };

    fn taken(closed: Node) -> BindingIdent {
        BindingIdent::from_node(closed)
    }

    fn given(self, alloc: Global) -> Result<Node, AllocError> {
        self.into_node(alloc)
    }
}
