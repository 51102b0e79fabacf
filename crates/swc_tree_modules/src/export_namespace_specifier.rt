//! Printed by tools/print_table.py from tools/tree.txt.
ghost use Rattle.std.specs.Prelude.{◌≡◌, IfOk};
ghost use Rattle.swc_tree_node.specs.declared.kind.Class.TheVariants as class;
ghost use Rattle.swc_tree_node.specs.declared.slot.Slot.TheVariants.{One};
ghost use Rattle.swc_tree_node.specs.declared.slot.Content.TheVariants.{Node as Of};
ghost use Rattle.swc_tree_node.specs.Fits.{Fits};
ghost use Rattle.swc_tree_modules.specs.Nodes.{export_namespace_specifier_node};

use std::alloc::{AllocError, Global};
use swc_tree_handle::{Opened, Tree, class, clone_two, close_two, open_two};
use swc_tree_marks::Span;
use swc_tree_node::{Kind, Node};

/// The whole of a module, exported under a name (ECMA-262, ExportFromClause).
#[derive(Debug, Drop, PartialEq, Eq)]
pub struct ExportNamespaceSpecifier {
    pub span: Span,
    pub name: Tree<class::ModuleExportName>,
}

impl Clone for ExportNamespaceSpecifier {
    ghost is_clone = { λ it copy. copy ≡ it };

    fn clone(&self) -> Result<ExportNamespaceSpecifier, AllocError> {
        let (span, name) = clone_two(&self.span, &self.name)?;
        Ok(ExportNamespaceSpecifier { span, name })
    }
}

impl Opened<class::ExportNamespaceSpecifier> for ExportNamespaceSpecifier {
    ghost class = { class.ExportNamespaceSpecifier };

    ghost node = { export_namespace_specifier_node };

    fn from_node(closed: Node) -> ExportNamespaceSpecifier
        requires { Fits closed (One (Of class.ExportNamespaceSpecifier)) }
        ensures { export_namespace_specifier_node result ≡ closed }
    {
        let (span, name) = open_two::<class::ExportNamespaceSpecifier, _, _>(
            closed,
            Kind::ExportNamespaceSpecifier,
        );
        ExportNamespaceSpecifier { span, name }
    }

    fn into_node(self, alloc: Global) -> Result<Node, AllocError>
        ensures { IfOk result (λ closed. (closed ≡ export_namespace_specifier_node self) × Fits closed (One (Of class.ExportNamespaceSpecifier))) }
    {
        let ExportNamespaceSpecifier { span, name } = self;
        close_two::<class::ExportNamespaceSpecifier, _, _>(
            alloc,
            Kind::ExportNamespaceSpecifier,
            (span, name),
        )
    }
}
