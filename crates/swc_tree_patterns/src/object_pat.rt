//! Printed by tools/print_table.py from tools/tree.txt.
ghost use Rattle.std.specs.Prelude.{◌≡◌, IfOk};
ghost use Rattle.swc_tree_node.specs.declared.kind.Class.TheVariants as class;
ghost use Rattle.swc_tree_node.specs.declared.slot.Slot.TheVariants.{One};
ghost use Rattle.swc_tree_node.specs.declared.slot.Content.TheVariants.{Node as Of};
ghost use Rattle.swc_tree_node.specs.Fits.{Fits};
ghost use Rattle.swc_tree_patterns.specs.Nodes.{object_pat_node};

use std::alloc::{AllocError, Global};
use swc_tree_handle::{Opened, Trees, class, clone_two, close_two, open_two};
use swc_tree_marks::Span;
use swc_tree_node::{Kind, Node};

/// A pattern of properties (ECMA-262, ObjectBindingPattern).
#[derive(Debug, Drop, PartialEq, Eq)]
pub struct ObjectPat {
    pub span: Span,
    pub props: Trees<class::ObjectPatProp>,
}

impl Clone for ObjectPat {
    ghost is_clone = { λ it copy. copy ≡ it };

    fn clone(&self) -> Result<ObjectPat, AllocError> {
        let (span, props) = clone_two(&self.span, &self.props)?;
        Ok(ObjectPat { span, props })
    }
}

impl Opened<class::ObjectPat> for ObjectPat {
    ghost class = { class.ObjectPat };

    ghost node = { object_pat_node };

    fn from_node(closed: Node) -> ObjectPat
        requires { Fits closed (One (Of class.ObjectPat)) }
        ensures { object_pat_node result ≡ closed }
    {
        let (span, props) = open_two::<class::ObjectPat, _, _>(closed, Kind::ObjectPat);
        ObjectPat { span, props }
    }

    fn into_node(self, alloc: Global) -> Result<Node, AllocError>
        ensures { IfOk result (λ closed. (closed ≡ object_pat_node self) × Fits closed (One (Of class.ObjectPat))) }
    {
        let ObjectPat { span, props } = self;
        close_two::<class::ObjectPat, _, _>(alloc, Kind::ObjectPat, (span, props))
    }
}
