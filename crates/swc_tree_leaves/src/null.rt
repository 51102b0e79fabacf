//! Printed by tools/print_table.py from tools/tree.txt.
ghost use Rattle.std.specs.Prelude.{◌≡◌, IfOk};
ghost use Rattle.swc_tree_node.specs.declared.kind.Class.TheVariants as class;
ghost use Rattle.swc_tree_node.specs.declared.slot.Slot.TheVariants.{One};
ghost use Rattle.swc_tree_node.specs.declared.slot.Content.TheVariants.{Node as Of};
ghost use Rattle.swc_tree_node.specs.Fits.{Fits};
ghost use Rattle.swc_tree_leaves.specs.Nodes.{null_node};

use std::alloc::{AllocError, Global};
use swc_tree_handle::{Opened, class, close_one, open_one};
use swc_tree_marks::Span;
use swc_tree_node::{Kind, Node};

/// The literal `null` (ECMA-262, NullLiteral).
#[derive(Clone, Debug, Drop, PartialEq, Eq)]
pub struct Null {
    pub span: Span,
}

impl Opened<class::Null> for Null {
    ghost class = { class.Null };

    ghost node = { null_node };

    fn from_node(closed: Node) -> Null
        requires { Fits closed (One (Of class.Null)) }
        ensures { null_node result ≡ closed }
    {
        let span = open_one::<class::Null, _>(closed, Kind::Null);
        Null { span }
    }

    fn into_node(self, alloc: Global) -> Result<Node, AllocError>
        ensures { IfOk result (λ closed. (closed ≡ null_node self) × Fits closed (One (Of class.Null))) }
    {
        let Null { span } = self;
        close_one::<class::Null, _>(alloc, Kind::Null, span)
    }
}
