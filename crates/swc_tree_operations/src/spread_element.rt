//! Printed by tools/print_table.py from tools/tree.txt.
ghost use Rattle.std.specs.Prelude.{◌≡◌, IfOk};
ghost use Rattle.swc_tree_node.specs.declared.kind.Class.TheVariants as class;
ghost use Rattle.swc_tree_node.specs.declared.slot.Slot.TheVariants.{One};
ghost use Rattle.swc_tree_node.specs.declared.slot.Content.TheVariants.{Node as Of};
ghost use Rattle.swc_tree_node.specs.Fits.{Fits};
ghost use Rattle.swc_tree_operations.specs.Nodes.{spread_element_node};

use std::alloc::{AllocError, Global};
use swc_tree_handle::{Opened, Tree, class, clone_two, close_two, open_two};
use swc_tree_marks::Span;
use swc_tree_node::{Kind, Node};

/// The properties of another object (ECMA-262, PropertyDefinition).
#[derive(Debug, Drop, PartialEq, Eq)]
pub struct SpreadElement {
    pub dot3_token: Span,
    pub expr: Tree<class::Expr>,
}

impl Clone for SpreadElement {
    ghost is_clone = { λ it copy. copy ≡ it };

    fn clone(&self) -> Result<SpreadElement, AllocError> {
        let (dot3_token, expr) = clone_two(&self.dot3_token, &self.expr)?;
        Ok(SpreadElement { dot3_token, expr })
    }
}

impl Opened<class::SpreadElement> for SpreadElement {
    ghost class = { class.SpreadElement };

    ghost node = { spread_element_node };

    fn from_node(closed: Node) -> SpreadElement
        requires { Fits closed (One (Of class.SpreadElement)) }
        ensures { spread_element_node result ≡ closed }
    {
        let (dot3_token, expr) = open_two::<class::SpreadElement, _, _>(
            closed,
            Kind::SpreadElement,
        );
        SpreadElement { dot3_token, expr }
    }

    fn into_node(self, alloc: Global) -> Result<Node, AllocError>
        ensures { IfOk result (λ closed. (closed ≡ spread_element_node self) × Fits closed (One (Of class.SpreadElement))) }
    {
        let SpreadElement { dot3_token, expr } = self;
        close_two::<class::SpreadElement, _, _>(alloc, Kind::SpreadElement, (dot3_token, expr))
    }
}
