//! Printed by tools/print_table.py from tools/tree.txt.
ghost use Rattle.std.specs.Prelude.{◌≡◌, IfOk};
ghost use Rattle.swc_tree_node.specs.declared.kind.Class.TheVariants as class;
ghost use Rattle.swc_tree_node.specs.declared.slot.Slot.TheVariants.{One};
ghost use Rattle.swc_tree_node.specs.declared.slot.Content.TheVariants.{Node as Of};
ghost use Rattle.swc_tree_node.specs.Fits.{Fits};
ghost use Rattle.swc_tree_operations.specs.Nodes.{array_lit_node};

use std::alloc::{AllocError, Global};
use swc_tree_handle::{Holes, Opened, class, clone_two, close_two, open_two};
use swc_tree_marks::Span;
use swc_tree_node::{Kind, Node};

/// An array literal, with elements left out where there is none (ECMA-262, ArrayLiteral).
#[derive(Debug, Drop, PartialEq, Eq)]
pub struct ArrayLit {
    pub span: Span,
    pub elems: Holes<class::ExprOrSpread>,
}

impl Clone for ArrayLit {
    ghost is_clone = { λ it copy. copy ≡ it };

    fn clone(&self) -> Result<ArrayLit, AllocError> {
        let (span, elems) = clone_two(&self.span, &self.elems)?;
        Ok(ArrayLit { span, elems })
    }
}

impl Opened<class::ArrayLit> for ArrayLit {
    ghost class = { class.ArrayLit };

    ghost node = { array_lit_node };

    fn from_node(closed: Node) -> ArrayLit
        requires { Fits closed (One (Of class.ArrayLit)) }
        ensures { array_lit_node result ≡ closed }
    {
        let (span, elems) = open_two::<class::ArrayLit, _, _>(closed, Kind::ArrayLit);
        ArrayLit { span, elems }
    }

    fn into_node(self, alloc: Global) -> Result<Node, AllocError>
        ensures { IfOk result (λ closed. (closed ≡ array_lit_node self) × Fits closed (One (Of class.ArrayLit))) }
    {
        let ArrayLit { span, elems } = self;
        close_two::<class::ArrayLit, _, _>(alloc, Kind::ArrayLit, (span, elems))
    }
}
