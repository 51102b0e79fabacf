//! Printed by tools/print_table.py from tools/tree.txt.
ghost use Rattle.std.specs.Prelude.{◌≡◌, IfOk};
ghost use Rattle.swc_tree_node.specs.declared.kind.Class.TheVariants as class;
ghost use Rattle.swc_tree_node.specs.declared.slot.Slot.TheVariants.{One};
ghost use Rattle.swc_tree_node.specs.declared.slot.Content.TheVariants.{Node as Of};
ghost use Rattle.swc_tree_node.specs.Fits.{Fits};
ghost use Rattle.swc_tree_functions.specs.Nodes.{class_prop_node};

use std::alloc::{AllocError, Global};
use swc_tree_handle::{Opened, Tree, class, clone_four, close_four, open_four};
use swc_tree_marks::Span;
use swc_tree_node::{Kind, Node};

/// A field of a class (ECMA-262, FieldDefinition).
#[derive(Debug, Drop, PartialEq, Eq)]
pub struct ClassProp {
    pub span: Span,
    pub key: Tree<class::PropName>,
    pub value: Option<Tree<class::Expr>>,
    pub is_static: bool,
}

impl Clone for ClassProp {
    ghost is_clone = { λ it copy. copy ≡ it };

    fn clone(&self) -> Result<ClassProp, AllocError> {
        let (span, key, value, is_static) = clone_four(
            &self.span,
            &self.key,
            &self.value,
            &self.is_static,
        )?;
        Ok(ClassProp {
            span,
            key,
            value,
            is_static,
        })
    }
}

impl Opened<class::ClassProp> for ClassProp {
    ghost class = { class.ClassProp };

    ghost node = { class_prop_node };

    fn from_node(closed: Node) -> ClassProp
        requires { Fits closed (One (Of class.ClassProp)) }
        ensures { class_prop_node result ≡ closed }
    {
        let (span, key, value, is_static) = open_four::<class::ClassProp, _, _, _, _>(
            closed,
            Kind::ClassProp,
        );
        ClassProp {
            span,
            key,
            value,
            is_static,
        }
    }

    fn into_node(self, alloc: Global) -> Result<Node, AllocError>
        ensures { IfOk result (λ closed. (closed ≡ class_prop_node self) × Fits closed (One (Of class.ClassProp))) }
    {
        let ClassProp {
            span,
            key,
            value,
            is_static,
        } = self;
        close_four::<class::ClassProp, _, _, _, _>(
            alloc,
            Kind::ClassProp,
            (span, key, value, is_static),
        )
    }
}
