//! Printed by tools/print_table.py from tools/tree.txt.
ghost use Rattle.std.specs.Prelude.{◌≡◌, IfOk};
ghost use Rattle.swc_tree_node.specs.declared.kind.Class.TheVariants as class;
ghost use Rattle.swc_tree_node.specs.declared.slot.Slot.TheVariants.{One};
ghost use Rattle.swc_tree_node.specs.declared.slot.Content.TheVariants.{Node as Of};
ghost use Rattle.swc_tree_node.specs.Fits.{Fits};
ghost use Rattle.swc_tree_modules.specs.Nodes.{export_default_decl_node};

use std::alloc::{AllocError, Global};
use swc_tree_handle::{Opened, Tree, class, clone_two, close_two, open_two};
use swc_tree_marks::Span;
use swc_tree_node::{Kind, Node};

/// A declaration as the default export (ECMA-262, ExportDeclaration).
#[derive(Debug, Drop, PartialEq, Eq)]
pub struct ExportDefaultDecl {
    pub span: Span,
    pub decl: Tree<class::DefaultDecl>,
}

impl Clone for ExportDefaultDecl {
    ghost is_clone = { λ it copy. copy ≡ it };

    fn clone(&self) -> Result<ExportDefaultDecl, AllocError> {
        let (span, decl) = clone_two(&self.span, &self.decl)?;
        Ok(ExportDefaultDecl { span, decl })
    }
}

impl Opened<class::ExportDefaultDecl> for ExportDefaultDecl {
    ghost class = { class.ExportDefaultDecl };

    ghost node = { export_default_decl_node };

    fn from_node(closed: Node) -> ExportDefaultDecl
        requires { Fits closed (One (Of class.ExportDefaultDecl)) }
        ensures { export_default_decl_node result ≡ closed }
    {
        let (span, decl) = open_two::<class::ExportDefaultDecl, _, _>(
            closed,
            Kind::ExportDefaultDecl,
        );
        ExportDefaultDecl { span, decl }
    }

    fn into_node(self, alloc: Global) -> Result<Node, AllocError>
        ensures { IfOk result (λ closed. (closed ≡ export_default_decl_node self) × Fits closed (One (Of class.ExportDefaultDecl))) }
    {
        let ExportDefaultDecl { span, decl } = self;
        close_two::<class::ExportDefaultDecl, _, _>(alloc, Kind::ExportDefaultDecl, (span, decl))
    }
}
