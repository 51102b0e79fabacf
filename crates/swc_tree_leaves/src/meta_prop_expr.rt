//! Printed by tools/print_table.py from tools/tree.txt.
ghost use Rattle.std.specs.Prelude.{◌≡◌, IfOk};
ghost use Rattle.swc_tree_node.specs.declared.kind.Class.TheVariants as class;
ghost use Rattle.swc_tree_node.specs.declared.slot.Slot.TheVariants.{One};
ghost use Rattle.swc_tree_node.specs.declared.slot.Content.TheVariants.{Node as Of};
ghost use Rattle.swc_tree_node.specs.Fits.{Fits};
ghost use Rattle.swc_tree_leaves.specs.Nodes.{meta_prop_expr_node};

use crate::meta_prop_kind::MetaPropKind;
use std::alloc::{AllocError, Global};
use swc_tree_handle::{Opened, class, close_two, open_two};
use swc_tree_marks::Span;
use swc_tree_node::{Kind, Node};

/// `new.target` or `import.meta` (ECMA-262, MetaProperty).
#[derive(Clone, Debug, Drop, PartialEq, Eq)]
pub struct MetaPropExpr {
    pub span: Span,
    pub kind: MetaPropKind,
}

impl Opened<class::MetaPropExpr> for MetaPropExpr {
    ghost class = { class.MetaPropExpr };

    ghost node = { meta_prop_expr_node };

    fn from_node(closed: Node) -> MetaPropExpr
        requires { Fits closed (One (Of class.MetaPropExpr)) }
        ensures { meta_prop_expr_node result ≡ closed }
    {
        let (span, kind) = open_two::<class::MetaPropExpr, _, _>(closed, Kind::MetaPropExpr);
        MetaPropExpr { span, kind }
    }

    fn into_node(self, alloc: Global) -> Result<Node, AllocError>
        ensures { IfOk result (λ closed. (closed ≡ meta_prop_expr_node self) × Fits closed (One (Of class.MetaPropExpr))) }
    {
        let MetaPropExpr { span, kind } = self;
        close_two::<class::MetaPropExpr, _, _>(alloc, Kind::MetaPropExpr, (span, kind))
    }
}
