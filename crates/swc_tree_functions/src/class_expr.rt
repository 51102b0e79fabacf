//! Printed by tools/print_table.py from tools/tree.txt.
ghost use Rattle.std.specs.Prelude.{◌≡◌, IfOk};
ghost use Rattle.swc_tree_node.specs.declared.kind.Class.TheVariants as class;
ghost use Rattle.swc_tree_node.specs.declared.slot.Slot.TheVariants.{One};
ghost use Rattle.swc_tree_node.specs.declared.slot.Content.TheVariants.{Node as Of};
ghost use Rattle.swc_tree_node.specs.Fits.{Fits};
ghost use Rattle.swc_tree_functions.specs.Nodes.{class_expr_node};

use std::alloc::{AllocError, Global};
use swc_tree_handle::{Opened, Tree, class, clone_two, close_two, open_two};
use swc_tree_marks::Ident;
use swc_tree_node::{Kind, Node};

/// A class expression (ECMA-262, ClassExpression).
#[derive(Debug, Drop, PartialEq, Eq)]
pub struct ClassExpr {
    pub ident: Option<Ident>,
    pub class_: Tree<class::Class>,
}

impl Clone for ClassExpr {
    ghost is_clone = { λ it copy. copy ≡ it };

    fn clone(&self) -> Result<ClassExpr, AllocError> {
        let (ident, class_) = clone_two(&self.ident, &self.class_)?;
        Ok(ClassExpr { ident, class_ })
    }
}

impl Opened<class::ClassExpr> for ClassExpr {
    ghost class = { class.ClassExpr };

    ghost node = { class_expr_node };

    fn from_node(closed: Node) -> ClassExpr
        requires { Fits closed (One (Of class.ClassExpr)) }
        ensures { class_expr_node result ≡ closed }
    {
        let (ident, class_) = open_two::<class::ClassExpr, _, _>(closed, Kind::ClassExpr);
        ClassExpr { ident, class_ }
    }

    fn into_node(self, alloc: Global) -> Result<Node, AllocError>
        ensures { IfOk result (λ closed. (closed ≡ class_expr_node self) × Fits closed (One (Of class.ClassExpr))) }
    {
        let ClassExpr { ident, class_ } = self;
        close_two::<class::ClassExpr, _, _>(alloc, Kind::ClassExpr, (ident, class_))
    }
}
