//! Printed by tools/print_table.py from tools/tree.txt.
ghost use Rattle.std.specs.Prelude.{◌≡◌, IfOk};
ghost use Rattle.swc_tree_node.specs.declared.kind.Class.TheVariants as class;
ghost use Rattle.swc_tree_node.specs.declared.slot.Slot.TheVariants.{One};
ghost use Rattle.swc_tree_node.specs.declared.slot.Content.TheVariants.{Node as Of};
ghost use Rattle.swc_tree_node.specs.Fits.{Fits};
ghost use Rattle.swc_tree_patterns.specs.Nodes.{array_pat_node};

use std::alloc::{AllocError, Global};
use swc_tree_handle::{Holes, Opened, class, clone_two, close_two, open_two};
use swc_tree_marks::Span;
use swc_tree_node::{Kind, Node};

/// A pattern of elements, some left out (ECMA-262, ArrayBindingPattern).
#[derive(Debug, Drop, PartialEq, Eq)]
pub struct ArrayPat {
    pub span: Span,
    pub elems: Holes<class::Pat>,
}

impl Clone for ArrayPat {
    ghost is_clone = { λ it copy. copy ≡ it };

    fn clone(&self) -> Result<ArrayPat, AllocError> {
        let (span, elems) = clone_two(&self.span, &self.elems)?;
        Ok(ArrayPat { span, elems })
    }
}

impl Opened<class::ArrayPat> for ArrayPat {
    ghost class = { class.ArrayPat };

    ghost node = { array_pat_node };

    fn from_node(closed: Node) -> ArrayPat
        requires { Fits closed (One (Of class.ArrayPat)) }
        ensures { array_pat_node result ≡ closed }
    {
        let (span, elems) = open_two::<class::ArrayPat, _, _>(closed, Kind::ArrayPat);
        ArrayPat { span, elems }
    }

    fn into_node(self, alloc: Global) -> Result<Node, AllocError>
        ensures { IfOk result (λ closed. (closed ≡ array_pat_node self) × Fits closed (One (Of class.ArrayPat))) }
    {
        let ArrayPat { span, elems } = self;
        close_two::<class::ArrayPat, _, _>(alloc, Kind::ArrayPat, (span, elems))
    }
}
