//! Printed by tools/print_table.py from tools/tree.txt.
ghost use Rattle.std.specs.Prelude.{◌≡◌, IfOk};
ghost use Rattle.swc_tree_node.specs.declared.kind.Class.TheVariants as class;
ghost use Rattle.swc_tree_node.specs.declared.slot.Slot.TheVariants.{One};
ghost use Rattle.swc_tree_node.specs.declared.slot.Content.TheVariants.{Node as Of};
ghost use Rattle.swc_tree_node.specs.Fits.{Fits};
ghost use Rattle.swc_tree_functions.specs.Nodes.{getter_prop_node};

use std::alloc::{AllocError, Global};
use swc_tree_handle::{Opened, Tree, class, clone_three, close_three, open_three};
use swc_tree_marks::Span;
use swc_tree_node::{Kind, Node};

/// A getter of an object (ECMA-262, MethodDefinition).
#[derive(Debug, Drop, PartialEq, Eq)]
pub struct GetterProp {
    pub span: Span,
    pub key: Tree<class::PropName>,
    pub body: Tree<class::BlockStmt>,
}

impl Clone for GetterProp {
    ghost is_clone = { λ it copy. copy ≡ it };

    fn clone(&self) -> Result<GetterProp, AllocError> {
        let (span, key, body) = clone_three(&self.span, &self.key, &self.body)?;
        Ok(GetterProp { span, key, body })
    }
}

impl Opened<class::GetterProp> for GetterProp {
    ghost class = { class.GetterProp };

    ghost node = { getter_prop_node };

    fn from_node(closed: Node) -> GetterProp
        requires { Fits closed (One (Of class.GetterProp)) }
        ensures { getter_prop_node result ≡ closed }
    {
        let (span, key, body) = open_three::<class::GetterProp, _, _, _>(closed, Kind::GetterProp);
        GetterProp { span, key, body }
    }

    fn into_node(self, alloc: Global) -> Result<Node, AllocError>
        ensures { IfOk result (λ closed. (closed ≡ getter_prop_node self) × Fits closed (One (Of class.GetterProp))) }
    {
        let GetterProp { span, key, body } = self;
        close_three::<class::GetterProp, _, _, _>(alloc, Kind::GetterProp, (span, key, body))
    }
}
