//! Identifiers, opened: the one struct of the tree that stands below this crate.
ghost use Rattle.std.specs.Prelude.{◌≡◌, IfOk};
ghost use Rattle.swc_tree_node.specs.declared.kind.Class.TheVariants as class;
ghost use Rattle.swc_tree_node.specs.declared.slot.Slot.TheVariants.{One};
ghost use Rattle.swc_tree_node.specs.declared.slot.Content.TheVariants.{Node as Of};
ghost use Rattle.swc_tree_node.specs.Fits.{Fits};
ghost use Rattle.swc_tree_handle.specs.Handles.{ident_node};

use crate::class;
use crate::opened::Opened;
use crate::tree::Tree;
use std::alloc::{AllocError, Global};
use swc_tree_marks::Ident;
use swc_tree_node::{Kind, Node};

impl Opened<class::Ident> for Ident {
    ghost class = { class.Ident };

    ghost node = { ident_node };

    fn from_node(closed: Node) -> Ident
        requires { Fits closed (One (Of class.Ident)) }
        ensures { ident_node result ≡ closed }
    {
        Tree::<class::Ident>::from_node(closed).into_identifier(Kind::Ident)
    }

    fn into_node(self, alloc: Global) -> Result<Node, AllocError>
        ensures { IfOk result (λ closed. (closed ≡ ident_node self) × Fits closed (One (Of class.Ident))) }
    {
        let tree = Tree::<class::Ident>::from_identifier(alloc, Kind::Ident, self)?;
        Ok(tree.into_node())
    }
}
