//! Printed by tools/print_table.py from tools/tree.txt.
ghost use Rattle.std.specs.Prelude.{◌≡◌, IfOk};
ghost use Rattle.swc_tree_node.specs.declared.kind.Class.TheVariants as class;
ghost use Rattle.swc_tree_node.specs.declared.slot.Slot.TheVariants.{One};
ghost use Rattle.swc_tree_node.specs.declared.slot.Content.TheVariants.{Node as Of};
ghost use Rattle.swc_tree_node.specs.Fits.{Fits};
ghost use Rattle.swc_tree_statements.specs.Nodes.{fn_decl_node};

use std::alloc::{AllocError, Global};
use swc_tree_handle::{Opened, Tree, class, clone_two, close_two, open_two};
use swc_tree_marks::Ident;
use swc_tree_node::{Kind, Node};

/// A declaration of a function (ECMA-262, FunctionDeclaration).
#[derive(Debug, Drop, PartialEq, Eq)]
pub struct FnDecl {
    pub ident: Ident,
    pub function: Tree<class::Function>,
}

impl Clone for FnDecl {
    ghost is_clone = { λ it copy. copy ≡ it };

    fn clone(&self) -> Result<FnDecl, AllocError> {
        let (ident, function) = clone_two(&self.ident, &self.function)?;
        Ok(FnDecl { ident, function })
    }
}

impl Opened<class::FnDecl> for FnDecl {
    ghost class = { class.FnDecl };

    ghost node = { fn_decl_node };

    fn from_node(closed: Node) -> FnDecl
        requires { Fits closed (One (Of class.FnDecl)) }
        ensures { fn_decl_node result ≡ closed }
    {
        let (ident, function) = open_two::<class::FnDecl, _, _>(closed, Kind::FnDecl);
        FnDecl { ident, function }
    }

    fn into_node(self, alloc: Global) -> Result<Node, AllocError>
        ensures { IfOk result (λ closed. (closed ≡ fn_decl_node self) × Fits closed (One (Of class.FnDecl))) }
    {
        let FnDecl { ident, function } = self;
        close_two::<class::FnDecl, _, _>(alloc, Kind::FnDecl, (ident, function))
    }
}
