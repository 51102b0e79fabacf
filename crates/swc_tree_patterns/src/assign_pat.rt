//! Printed by tools/print_table.py from tools/tree.txt.
ghost use Rattle.std.specs.Prelude.{◌≡◌, IfOk};
ghost use Rattle.swc_tree_node.specs.declared.kind.Class.TheVariants as class;
ghost use Rattle.swc_tree_node.specs.declared.slot.Slot.TheVariants.{One};
ghost use Rattle.swc_tree_node.specs.declared.slot.Content.TheVariants.{Node as Of};
ghost use Rattle.swc_tree_node.specs.Fits.{Fits};
ghost use Rattle.swc_tree_patterns.specs.Nodes.{assign_pat_node};

use std::alloc::{AllocError, Global};
use swc_tree_handle::{Opened, Tree, class, clone_three, close_three, open_three};
use swc_tree_marks::Span;
use swc_tree_node::{Kind, Node};

/// A pattern with a default (ECMA-262, BindingElement).
#[derive(Debug, Drop, PartialEq, Eq)]
pub struct AssignPat {
    pub span: Span,
    pub left: Tree<class::Pat>,
    pub right: Tree<class::Expr>,
}

impl Clone for AssignPat {
    ghost is_clone = { λ it copy. copy ≡ it };

    fn clone(&self) -> Result<AssignPat, AllocError> {
        let (span, left, right) = clone_three(&self.span, &self.left, &self.right)?;
        Ok(AssignPat { span, left, right })
    }
}

impl Opened<class::AssignPat> for AssignPat {
    ghost class = { class.AssignPat };

    ghost node = { assign_pat_node };

    fn from_node(closed: Node) -> AssignPat
        requires { Fits closed (One (Of class.AssignPat)) }
        ensures { assign_pat_node result ≡ closed }
    {
        let (span, left, right) = open_three::<class::AssignPat, _, _, _>(closed, Kind::AssignPat);
        AssignPat { span, left, right }
    }

    fn into_node(self, alloc: Global) -> Result<Node, AllocError>
        ensures { IfOk result (λ closed. (closed ≡ assign_pat_node self) × Fits closed (One (Of class.AssignPat))) }
    {
        let AssignPat { span, left, right } = self;
        close_three::<class::AssignPat, _, _, _>(alloc, Kind::AssignPat, (span, left, right))
    }
}
