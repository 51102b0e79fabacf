//! Printed by tools/print_table.py from tools/tree.txt.
ghost use Rattle.std.specs.Prelude.{◌≡◌, IfOk};
ghost use Rattle.swc_tree_node.specs.declared.kind.Class.TheVariants as class;
ghost use Rattle.swc_tree_node.specs.declared.slot.Slot.TheVariants.{One};
ghost use Rattle.swc_tree_node.specs.declared.slot.Content.TheVariants.{Node as Of};
ghost use Rattle.swc_tree_node.specs.Fits.{Fits};
ghost use Rattle.swc_tree_statements.specs.Nodes.{class_decl_node};

use std::alloc::{AllocError, Global};
use swc_tree_handle::{Opened, Tree, class, clone_two, close_two, open_two};
use swc_tree_marks::Ident;
use swc_tree_node::{Kind, Node};

/// A declaration of a class (ECMA-262, ClassDeclaration).
#[derive(Debug, Drop, PartialEq, Eq)]
pub struct ClassDecl {
    pub ident: Ident,
    pub class_: Tree<class::Class>,
}

impl Clone for ClassDecl {
    ghost is_clone = { λ it copy. copy ≡ it };

    fn clone(&self) -> Result<ClassDecl, AllocError> {
        let (ident, class_) = clone_two(&self.ident, &self.class_)?;
        Ok(ClassDecl { ident, class_ })
    }
}

impl Opened<class::ClassDecl> for ClassDecl {
    ghost class = { class.ClassDecl };

    ghost node = { class_decl_node };

    fn from_node(closed: Node) -> ClassDecl
        requires { Fits closed (One (Of class.ClassDecl)) }
        ensures { class_decl_node result ≡ closed }
    {
        let (ident, class_) = open_two::<class::ClassDecl, _, _>(closed, Kind::ClassDecl);
        ClassDecl { ident, class_ }
    }

    fn into_node(self, alloc: Global) -> Result<Node, AllocError>
        ensures { IfOk result (λ closed. (closed ≡ class_decl_node self) × Fits closed (One (Of class.ClassDecl))) }
    {
        let ClassDecl { ident, class_ } = self;
        close_two::<class::ClassDecl, _, _>(alloc, Kind::ClassDecl, (ident, class_))
    }
}
