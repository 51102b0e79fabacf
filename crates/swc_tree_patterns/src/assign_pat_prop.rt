//! Printed by tools/print_table.py from tools/tree.txt.
ghost use Rattle.std.specs.Prelude.{◌≡◌, IfOk};
ghost use Rattle.swc_tree_node.specs.declared.kind.Class.TheVariants as class;
ghost use Rattle.swc_tree_node.specs.declared.slot.Slot.TheVariants.{One};
ghost use Rattle.swc_tree_node.specs.declared.slot.Content.TheVariants.{Node as Of};
ghost use Rattle.swc_tree_node.specs.Fits.{Fits};
ghost use Rattle.swc_tree_patterns.specs.Nodes.{assign_pat_prop_node};

use std::alloc::{AllocError, Global};
use swc_tree_handle::{Opened, Tree, class, clone_three, close_three, open_three};
use swc_tree_leaves::BindingIdent;
use swc_tree_marks::Span;
use swc_tree_node::{Kind, Node};

/// A name that is both key and target, with its default (ECMA-262, SingleNameBinding).
#[derive(Debug, Drop, PartialEq, Eq)]
pub struct AssignPatProp {
    pub span: Span,
    pub key: BindingIdent,
    pub value: Option<Tree<class::Expr>>,
}

impl Clone for AssignPatProp {
    ghost is_clone = { λ it copy. copy ≡ it };

    fn clone(&self) -> Result<AssignPatProp, AllocError> {
        let (span, key, value) = clone_three(&self.span, &self.key, &self.value)?;
        Ok(AssignPatProp { span, key, value })
    }
}

impl Opened<class::AssignPatProp> for AssignPatProp {
    ghost class = { class.AssignPatProp };

    ghost node = { assign_pat_prop_node };

    fn from_node(closed: Node) -> AssignPatProp
        requires { Fits closed (One (Of class.AssignPatProp)) }
        ensures { assign_pat_prop_node result ≡ closed }
    {
        let (span, key, value) = open_three::<class::AssignPatProp, _, _, _>(
            closed,
            Kind::AssignPatProp,
        );
        AssignPatProp { span, key, value }
    }

    fn into_node(self, alloc: Global) -> Result<Node, AllocError>
        ensures { IfOk result (λ closed. (closed ≡ assign_pat_prop_node self) × Fits closed (One (Of class.AssignPatProp))) }
    {
        let AssignPatProp { span, key, value } = self;
        close_three::<class::AssignPatProp, _, _, _>(alloc, Kind::AssignPatProp, (span, key, value))
    }
}
