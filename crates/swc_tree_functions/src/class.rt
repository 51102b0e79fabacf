//! Printed by tools/print_table.py from tools/tree.txt.
ghost use Rattle.std.specs.Prelude.{◌≡◌, IfOk};
ghost use Rattle.swc_tree_node.specs.declared.kind.Class.TheVariants as class;
ghost use Rattle.swc_tree_node.specs.declared.slot.Slot.TheVariants.{One};
ghost use Rattle.swc_tree_node.specs.declared.slot.Content.TheVariants.{Node as Of};
ghost use Rattle.swc_tree_node.specs.Fits.{Fits};
ghost use Rattle.swc_tree_functions.specs.Nodes.{class_node};

use std::alloc::{AllocError, Global};
use swc_tree_handle::{Opened, Tree, Trees, class, clone_three, close_three, open_three};
use swc_tree_marks::Span;
use swc_tree_node::{Kind, Node};

/// The heritage and the members of a class (ECMA-262, ClassTail).
#[derive(Debug, Drop, PartialEq, Eq)]
pub struct Class {
    pub span: Span,
    pub super_class: Option<Tree<class::Expr>>,
    pub body: Trees<class::ClassMember>,
}

impl Clone for Class {
    ghost is_clone = { λ it copy. copy ≡ it };

    fn clone(&self) -> Result<Class, AllocError> {
        let (span, super_class, body) = clone_three(&self.span, &self.super_class, &self.body)?;
        Ok(Class {
            span,
            super_class,
            body,
        })
    }
}

impl Opened<class::Class> for Class {
    ghost class = { class.Class };

    ghost node = { class_node };

    fn from_node(closed: Node) -> Class
        requires { Fits closed (One (Of class.Class)) }
        ensures { class_node result ≡ closed }
    {
        let (span, super_class, body) = open_three::<class::Class, _, _, _>(closed, Kind::Class);
        Class {
            span,
            super_class,
            body,
        }
    }

    fn into_node(self, alloc: Global) -> Result<Node, AllocError>
        ensures { IfOk result (λ closed. (closed ≡ class_node self) × Fits closed (One (Of class.Class))) }
    {
        let Class {
            span,
            super_class,
            body,
        } = self;
        close_three::<class::Class, _, _, _>(alloc, Kind::Class, (span, super_class, body))
    }
}
