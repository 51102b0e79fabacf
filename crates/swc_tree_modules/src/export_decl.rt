//! Printed by tools/print_table.py from tools/tree.txt.
ghost use Rattle.std.specs.Prelude.{◌≡◌, IfOk};
ghost use Rattle.swc_tree_node.specs.declared.kind.Class.TheVariants as class;
ghost use Rattle.swc_tree_node.specs.declared.slot.Slot.TheVariants.{One};
ghost use Rattle.swc_tree_node.specs.declared.slot.Content.TheVariants.{Node as Of};
ghost use Rattle.swc_tree_node.specs.Fits.{Fits};
ghost use Rattle.swc_tree_modules.specs.Nodes.{export_decl_node};

use std::alloc::{AllocError, Global};
use swc_tree_handle::{Opened, Tree, class, clone_two, close_two, open_two};
use swc_tree_marks::Span;
use swc_tree_node::{Kind, Node};

/// A declaration that is exported (ECMA-262, ExportDeclaration).
#[derive(Debug, Drop, PartialEq, Eq)]
pub struct ExportDecl {
    pub span: Span,
    pub decl: Tree<class::Decl>,
}

impl Clone for ExportDecl {
    ghost is_clone = { λ it copy. copy ≡ it };

    fn clone(&self) -> Result<ExportDecl, AllocError> {
        let (span, decl) = clone_two(&self.span, &self.decl)?;
        Ok(ExportDecl { span, decl })
    }
}

impl Opened<class::ExportDecl> for ExportDecl {
    ghost class = { class.ExportDecl };

    ghost node = { export_decl_node };

    fn from_node(closed: Node) -> ExportDecl
        requires { Fits closed (One (Of class.ExportDecl)) }
        ensures { export_decl_node result ≡ closed }
    {
        let (span, decl) = open_two::<class::ExportDecl, _, _>(closed, Kind::ExportDecl);
        ExportDecl { span, decl }
    }

    fn into_node(self, alloc: Global) -> Result<Node, AllocError>
        ensures { IfOk result (λ closed. (closed ≡ export_decl_node self) × Fits closed (One (Of class.ExportDecl))) }
    {
        let ExportDecl { span, decl } = self;
        close_two::<class::ExportDecl, _, _>(alloc, Kind::ExportDecl, (span, decl))
    }
}
