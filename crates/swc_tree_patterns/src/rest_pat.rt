//! Printed by tools/print_table.py from tools/tree.txt.
ghost use Rattle.std.specs.Prelude.{◌≡◌, IfOk};
ghost use Rattle.swc_tree_node.specs.declared.kind.Class.TheVariants as class;
ghost use Rattle.swc_tree_node.specs.declared.slot.Slot.TheVariants.{One};
ghost use Rattle.swc_tree_node.specs.declared.slot.Content.TheVariants.{Node as Of};
ghost use Rattle.swc_tree_node.specs.Fits.{Fits};
ghost use Rattle.swc_tree_patterns.specs.Nodes.{rest_pat_node};

use std::alloc::{AllocError, Global};
use swc_tree_handle::{Opened, Tree, class, clone_two, close_two, open_two};
use swc_tree_marks::Span;
use swc_tree_node::{Kind, Node};

/// What takes the rest (ECMA-262, BindingRestElement).
#[derive(Debug, Drop, PartialEq, Eq)]
pub struct RestPat {
    pub span: Span,
    pub arg: Tree<class::Pat>,
}

impl Clone for RestPat {
    ghost is_clone = { λ it copy. copy ≡ it };

    fn clone(&self) -> Result<RestPat, AllocError> {
        let (span, arg) = clone_two(&self.span, &self.arg)?;
        Ok(RestPat { span, arg })
    }
}

impl Opened<class::RestPat> for RestPat {
    ghost class = { class.RestPat };

    ghost node = { rest_pat_node };

    fn from_node(closed: Node) -> RestPat
        requires { Fits closed (One (Of class.RestPat)) }
        ensures { rest_pat_node result ≡ closed }
    {
        let (span, arg) = open_two::<class::RestPat, _, _>(closed, Kind::RestPat);
        RestPat { span, arg }
    }

    fn into_node(self, alloc: Global) -> Result<Node, AllocError>
        ensures { IfOk result (λ closed. (closed ≡ rest_pat_node self) × Fits closed (One (Of class.RestPat))) }
    {
        let RestPat { span, arg } = self;
        close_two::<class::RestPat, _, _>(alloc, Kind::RestPat, (span, arg))
    }
}
