//! Printed by tools/print_table.py from tools/tree.txt.
ghost use Rattle.std.specs.Prelude.{◌≡◌, IfOk};
ghost use Rattle.swc_tree_node.specs.declared.kind.Class.TheVariants as class;
ghost use Rattle.swc_tree_node.specs.declared.slot.Slot.TheVariants.{One};
ghost use Rattle.swc_tree_node.specs.declared.slot.Content.TheVariants.{Node as Of};
ghost use Rattle.swc_tree_node.specs.Fits.{Fits};
ghost use Rattle.swc_tree_modules.specs.Nodes.{of_default_decl};

use std::alloc::{AllocError, Global};
use swc_tree_functions::{ClassExpr, FnExpr};
use swc_tree_handle::{Opened, Tree, class};
use swc_tree_node::{Kind, Node};

/// What may be declared as the default export.
#[derive(Clone, Debug, Drop, PartialEq, Eq)]
pub enum DefaultDecl {
    Class(ClassExpr),
    Fn(FnExpr),
}

impl Opened<class::DefaultDecl> for DefaultDecl {
    ghost class = { class.DefaultDecl };

    ghost node = { of_default_decl };

    fn from_node(closed: Node) -> DefaultDecl
        requires { Fits closed (One (Of class.DefaultDecl)) }
        ensures { of_default_decl result ≡ closed }
    {
        let tree = Tree::<class::DefaultDecl>::from_node(closed);
        match tree.kind() {
            Kind::ClassExpr => DefaultDecl::Class(tree.narrow::<class::ClassExpr>().open()),
            Kind::FnExpr => DefaultDecl::Fn(tree.narrow::<class::FnExpr>().open()),
            _ => unreachable!(),
        }
    }

    fn into_node(self, alloc: Global) -> Result<Node, AllocError>
        ensures { IfOk result (λ closed. (closed ≡ of_default_decl self) × Fits closed (One (Of class.DefaultDecl))) }
    {
        match self {
            DefaultDecl::Class(opened) => opened.close_within::<class::DefaultDecl>(alloc),
            DefaultDecl::Fn(opened) => opened.close_within::<class::DefaultDecl>(alloc),
        }
    }
}
