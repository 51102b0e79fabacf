//! Printed by tools/print_table.py from tools/tree.txt.
ghost use Rattle.std.specs.Prelude.{◌≡◌, IfOk};
ghost use Rattle.swc_tree_node.specs.declared.kind.Class.TheVariants as class;
ghost use Rattle.swc_tree_node.specs.declared.slot.Slot.TheVariants.{One};
ghost use Rattle.swc_tree_node.specs.declared.slot.Content.TheVariants.{Node as Of};
ghost use Rattle.swc_tree_node.specs.Fits.{Fits};
ghost use Rattle.swc_tree_operations.specs.Nodes.{opt_call_node};

use std::alloc::{AllocError, Global};
use swc_tree_handle::{Opened, Tree, Trees, class, clone_three, close_three, open_three};
use swc_tree_marks::Span;
use swc_tree_node::{Kind, Node};

/// A call in an optional chain (ECMA-262, OptionalChain).
#[derive(Debug, Drop, PartialEq, Eq)]
pub struct OptCall {
    pub span: Span,
    pub callee: Tree<class::Expr>,
    pub args: Trees<class::ExprOrSpread>,
}

impl Clone for OptCall {
    ghost is_clone = { λ it copy. copy ≡ it };

    fn clone(&self) -> Result<OptCall, AllocError> {
        let (span, callee, args) = clone_three(&self.span, &self.callee, &self.args)?;
        Ok(OptCall { span, callee, args })
    }
}

impl Opened<class::OptCall> for OptCall {
    ghost class = { class.OptCall };

    ghost node = { opt_call_node };

    fn from_node(closed: Node) -> OptCall
        requires { Fits closed (One (Of class.OptCall)) }
        ensures { opt_call_node result ≡ closed }
    {
        let (span, callee, args) = open_three::<class::OptCall, _, _, _>(closed, Kind::OptCall);
        OptCall { span, callee, args }
    }

    fn into_node(self, alloc: Global) -> Result<Node, AllocError>
        ensures { IfOk result (λ closed. (closed ≡ opt_call_node self) × Fits closed (One (Of class.OptCall))) }
    {
        let OptCall { span, callee, args } = self;
        close_three::<class::OptCall, _, _, _>(alloc, Kind::OptCall, (span, callee, args))
    }
}
