//! Printed by tools/print_table.py from tools/tree.txt.
ghost use Rattle.std.specs.Prelude.{◌≡◌, IfOk};
ghost use Rattle.swc_tree_node.specs.declared.kind.Class.TheVariants as class;
ghost use Rattle.swc_tree_node.specs.declared.slot.Slot.TheVariants.{One};
ghost use Rattle.swc_tree_node.specs.declared.slot.Content.TheVariants.{Node as Of};
ghost use Rattle.swc_tree_node.specs.Fits.{Fits};
ghost use Rattle.swc_tree_functions.specs.Nodes.{setter_prop_node};

use std::alloc::{AllocError, Global};
use swc_tree_handle::{Opened, Tree, class, clone_four, close_four, open_four};
use swc_tree_marks::Span;
use swc_tree_node::{Kind, Node};

/// A setter of an object (ECMA-262, MethodDefinition).
#[derive(Debug, Drop, PartialEq, Eq)]
pub struct SetterProp {
    pub span: Span,
    pub key: Tree<class::PropName>,
    pub param: Tree<class::Pat>,
    pub body: Tree<class::BlockStmt>,
}

impl Clone for SetterProp {
    ghost is_clone = { λ it copy. copy ≡ it };

    fn clone(&self) -> Result<SetterProp, AllocError> {
        let (span, key, param, body) = clone_four(&self.span, &self.key, &self.param, &self.body)?;
        Ok(SetterProp {
            span,
            key,
            param,
            body,
        })
    }
}

impl Opened<class::SetterProp> for SetterProp {
    ghost class = { class.SetterProp };

    ghost node = { setter_prop_node };

    fn from_node(closed: Node) -> SetterProp
        requires { Fits closed (One (Of class.SetterProp)) }
        ensures { setter_prop_node result ≡ closed }
    {
        let (span, key, param, body) = open_four::<class::SetterProp, _, _, _, _>(
            closed,
            Kind::SetterProp,
        );
        SetterProp {
            span,
            key,
            param,
            body,
        }
    }

    fn into_node(self, alloc: Global) -> Result<Node, AllocError>
        ensures { IfOk result (λ closed. (closed ≡ setter_prop_node self) × Fits closed (One (Of class.SetterProp))) }
    {
        let SetterProp {
            span,
            key,
            param,
            body,
        } = self;
        close_four::<class::SetterProp, _, _, _, _>(
            alloc,
            Kind::SetterProp,
            (span, key, param, body),
        )
    }
}
