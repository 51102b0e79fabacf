//! Printed by tools/print_table.py from tools/tree.txt.
ghost use Rattle.std.specs.Prelude.{◌≡◌, IfOk};
ghost use Rattle.swc_tree_node.specs.declared.kind.Class.TheVariants as class;
ghost use Rattle.swc_tree_node.specs.declared.slot.Slot.TheVariants.{One};
ghost use Rattle.swc_tree_node.specs.declared.slot.Content.TheVariants.{Node as Of};
ghost use Rattle.swc_tree_node.specs.Fits.{Fits};
ghost use Rattle.swc_tree_operations.specs.Nodes.{object_lit_node};

use std::alloc::{AllocError, Global};
use swc_tree_handle::{Opened, Trees, class, clone_two, close_two, open_two};
use swc_tree_marks::Span;
use swc_tree_node::{Kind, Node};

/// An object literal (ECMA-262, ObjectLiteral).
#[derive(Debug, Drop, PartialEq, Eq)]
pub struct ObjectLit {
    pub span: Span,
    pub props: Trees<class::PropOrSpread>,
}

impl Clone for ObjectLit {
    ghost is_clone = { λ it copy. copy ≡ it };

    fn clone(&self) -> Result<ObjectLit, AllocError> {
        let (span, props) = clone_two(&self.span, &self.props)?;
        Ok(ObjectLit { span, props })
    }
}

impl Opened<class::ObjectLit> for ObjectLit {
    ghost class = { class.ObjectLit };

    ghost node = { object_lit_node };

    fn from_node(closed: Node) -> ObjectLit
        requires { Fits closed (One (Of class.ObjectLit)) }
        ensures { object_lit_node result ≡ closed }
    {
        let (span, props) = open_two::<class::ObjectLit, _, _>(closed, Kind::ObjectLit);
        ObjectLit { span, props }
    }

    fn into_node(self, alloc: Global) -> Result<Node, AllocError>
        ensures { IfOk result (λ closed. (closed ≡ object_lit_node self) × Fits closed (One (Of class.ObjectLit))) }
    {
        let ObjectLit { span, props } = self;
        close_two::<class::ObjectLit, _, _>(alloc, Kind::ObjectLit, (span, props))
    }
}
