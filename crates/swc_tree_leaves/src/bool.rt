//! Printed by tools/print_table.py from tools/tree.txt.
ghost use Rattle.std.specs.Prelude.{◌≡◌, IfOk};
ghost use Rattle.swc_tree_node.specs.declared.kind.Class.TheVariants as class;
ghost use Rattle.swc_tree_node.specs.declared.slot.Slot.TheVariants.{One};
ghost use Rattle.swc_tree_node.specs.declared.slot.Content.TheVariants.{Node as Of};
ghost use Rattle.swc_tree_node.specs.Fits.{Fits};
ghost use Rattle.swc_tree_leaves.specs.Nodes.{bool_node};

use std::alloc::{AllocError, Global};
use swc_tree_handle::{Opened, class, close_two, open_two};
use swc_tree_marks::Span;
use swc_tree_node::{Kind, Node};

/// A boolean literal (ECMA-262, BooleanLiteral).
#[derive(Clone, Debug, Drop, PartialEq, Eq)]
pub struct Bool {
    pub span: Span,
    pub value: bool,
}

impl Opened<class::Bool> for Bool {
    ghost class = { class.Bool };

    ghost node = { bool_node };

    fn from_node(closed: Node) -> Bool
        requires { Fits closed (One (Of class.Bool)) }
        ensures { bool_node result ≡ closed }
    {
        let (span, value) = open_two::<class::Bool, _, _>(closed, Kind::Bool);
        Bool { span, value }
    }

    fn into_node(self, alloc: Global) -> Result<Node, AllocError>
        ensures { IfOk result (λ closed. (closed ≡ bool_node self) × Fits closed (One (Of class.Bool))) }
    {
        let Bool { span, value } = self;
        close_two::<class::Bool, _, _>(alloc, Kind::Bool, (span, value))
    }
}
