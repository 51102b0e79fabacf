//! Printed by tools/print_table.py from tools/tree.txt.
ghost use Rattle.std.specs.Prelude.{◌≡◌, IfOk};
ghost use Rattle.swc_tree_node.specs.declared.kind.Class.TheVariants as class;
ghost use Rattle.swc_tree_node.specs.declared.slot.Slot.TheVariants.{One};
ghost use Rattle.swc_tree_node.specs.declared.slot.Content.TheVariants.{Node as Of};
ghost use Rattle.swc_tree_node.specs.Fits.{Fits};
ghost use Rattle.swc_tree_functions.specs.Nodes.{private_method_node};

use crate::method_kind::MethodKind;
use std::alloc::{AllocError, Global};
use swc_tree_handle::{Opened, Tree, class, clone_five, close_five, open_five};
use swc_tree_leaves::PrivateName;
use swc_tree_marks::Span;
use swc_tree_node::{Kind, Node};

/// A private method of a class (ECMA-262, MethodDefinition).
#[derive(Debug, Drop, PartialEq, Eq)]
pub struct PrivateMethod {
    pub span: Span,
    pub key: PrivateName,
    pub function: Tree<class::Function>,
    pub kind: MethodKind,
    pub is_static: bool,
}

impl Clone for PrivateMethod {
    ghost is_clone = { λ it copy. copy ≡ it };

    fn clone(&self) -> Result<PrivateMethod, AllocError> {
        let (span, key, function, kind, is_static) = clone_five(
            &self.span,
            &self.key,
            &self.function,
            &self.kind,
            &self.is_static,
        )?;
        Ok(PrivateMethod {
            span,
            key,
            function,
            kind,
            is_static,
        })
    }
}

impl Opened<class::PrivateMethod> for PrivateMethod {
    ghost class = { class.PrivateMethod };

    ghost node = { private_method_node };

    fn from_node(closed: Node) -> PrivateMethod
        requires { Fits closed (One (Of class.PrivateMethod)) }
        ensures { private_method_node result ≡ closed }
    {
        let (span, key, function, kind, is_static) = open_five::<
            class::PrivateMethod,
            _,
            _,
            _,
            _,
            _,
        >(closed, Kind::PrivateMethod);
        PrivateMethod {
            span,
            key,
            function,
            kind,
            is_static,
        }
    }

    fn into_node(self, alloc: Global) -> Result<Node, AllocError>
        ensures { IfOk result (λ closed. (closed ≡ private_method_node self) × Fits closed (One (Of class.PrivateMethod))) }
    {
        let PrivateMethod {
            span,
            key,
            function,
            kind,
            is_static,
        } = self;
        close_five::<class::PrivateMethod, _, _, _, _, _>(
            alloc,
            Kind::PrivateMethod,
            (span, key, function, kind, is_static),
        )
    }
}
