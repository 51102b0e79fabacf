//! Printed by tools/print_table.py from tools/tree.txt.
ghost use Rattle.std.specs.Prelude.{◌≡◌, IfOk};
ghost use Rattle.swc_tree_node.specs.declared.kind.Class.TheVariants as class;
ghost use Rattle.swc_tree_node.specs.declared.slot.Slot.TheVariants.{One};
ghost use Rattle.swc_tree_node.specs.declared.slot.Content.TheVariants.{Node as Of};
ghost use Rattle.swc_tree_node.specs.Fits.{Fits};
ghost use Rattle.swc_tree_functions.specs.Nodes.{computed_prop_name_node};

use std::alloc::{AllocError, Global};
use swc_tree_handle::{Opened, Tree, class, clone_two, close_two, open_two};
use swc_tree_marks::Span;
use swc_tree_node::{Kind, Node};

/// A computed key (ECMA-262, ComputedPropertyName).
#[derive(Debug, Drop, PartialEq, Eq)]
pub struct ComputedPropName {
    pub span: Span,
    pub expr: Tree<class::Expr>,
}

impl Clone for ComputedPropName {
    ghost is_clone = { λ it copy. copy ≡ it };

    fn clone(&self) -> Result<ComputedPropName, AllocError> {
        let (span, expr) = clone_two(&self.span, &self.expr)?;
        Ok(ComputedPropName { span, expr })
    }
}

impl Opened<class::ComputedPropName> for ComputedPropName {
    ghost class = { class.ComputedPropName };

    ghost node = { computed_prop_name_node };

    fn from_node(closed: Node) -> ComputedPropName
        requires { Fits closed (One (Of class.ComputedPropName)) }
        ensures { computed_prop_name_node result ≡ closed }
    {
        let (span, expr) = open_two::<class::ComputedPropName, _, _>(
            closed,
            Kind::ComputedPropName,
        );
        ComputedPropName { span, expr }
    }

    fn into_node(self, alloc: Global) -> Result<Node, AllocError>
        ensures { IfOk result (λ closed. (closed ≡ computed_prop_name_node self) × Fits closed (One (Of class.ComputedPropName))) }
    {
        let ComputedPropName { span, expr } = self;
        close_two::<class::ComputedPropName, _, _>(alloc, Kind::ComputedPropName, (span, expr))
    }
}
