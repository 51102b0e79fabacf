//! Printed by tools/print_table.py from tools/tree.txt.
ghost use Rattle.std.specs.Prelude.{◌≡◌, IfOk};
ghost use Rattle.swc_tree_node.specs.declared.kind.Class.TheVariants as class;
ghost use Rattle.swc_tree_node.specs.declared.slot.Slot.TheVariants.{One};
ghost use Rattle.swc_tree_node.specs.declared.slot.Content.TheVariants.{Node as Of};
ghost use Rattle.swc_tree_node.specs.Fits.{Fits};
ghost use Rattle.swc_tree_functions.specs.Nodes.{param_node};

use std::alloc::{AllocError, Global};
use swc_tree_handle::{Opened, Tree, class, clone_two, close_two, open_two};
use swc_tree_marks::Span;
use swc_tree_node::{Kind, Node};

/// A parameter of a function (ECMA-262, FormalParameter).
#[derive(Debug, Drop, PartialEq, Eq)]
pub struct Param {
    pub span: Span,
    pub pat: Tree<class::Pat>,
}

impl Clone for Param {
    ghost is_clone = { λ it copy. copy ≡ it };

    fn clone(&self) -> Result<Param, AllocError> {
        let (span, pat) = clone_two(&self.span, &self.pat)?;
        Ok(Param { span, pat })
    }
}

impl Opened<class::Param> for Param {
    ghost class = { class.Param };

    ghost node = { param_node };

    fn from_node(closed: Node) -> Param
        requires { Fits closed (One (Of class.Param)) }
        ensures { param_node result ≡ closed }
    {
        let (span, pat) = open_two::<class::Param, _, _>(closed, Kind::Param);
        Param { span, pat }
    }

    fn into_node(self, alloc: Global) -> Result<Node, AllocError>
        ensures { IfOk result (λ closed. (closed ≡ param_node self) × Fits closed (One (Of class.Param))) }
    {
        let Param { span, pat } = self;
        close_two::<class::Param, _, _>(alloc, Kind::Param, (span, pat))
    }
}
