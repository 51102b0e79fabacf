//! Printed by tools/print_table.py from tools/tree.txt.
ghost use Rattle.std.specs.Prelude.{◌≡◌, IfOk};
ghost use Rattle.swc_tree_node.specs.declared.kind.Class.TheVariants as class;
ghost use Rattle.swc_tree_node.specs.declared.slot.Slot.TheVariants.{One};
ghost use Rattle.swc_tree_node.specs.declared.slot.Content.TheVariants.{Node as Of};
ghost use Rattle.swc_tree_node.specs.Fits.{Fits};
ghost use Rattle.swc_tree_modules.specs.Nodes.{export_named_specifier_node};

use std::alloc::{AllocError, Global};
use swc_tree_handle::{Opened, Tree, class, clone_three, close_three, open_three};
use swc_tree_marks::Span;
use swc_tree_node::{Kind, Node};

/// One name that is exported (ECMA-262, ExportSpecifier).
#[derive(Debug, Drop, PartialEq, Eq)]
pub struct ExportNamedSpecifier {
    pub span: Span,
    pub orig: Tree<class::ModuleExportName>,
    pub exported: Option<Tree<class::ModuleExportName>>,
}

impl Clone for ExportNamedSpecifier {
    ghost is_clone = { λ it copy. copy ≡ it };

    fn clone(&self) -> Result<ExportNamedSpecifier, AllocError> {
        let (span, orig, exported) = clone_three(&self.span, &self.orig, &self.exported)?;
        Ok(ExportNamedSpecifier {
            span,
            orig,
            exported,
        })
    }
}

impl Opened<class::ExportNamedSpecifier> for ExportNamedSpecifier {
    ghost class = { class.ExportNamedSpecifier };

    ghost node = { export_named_specifier_node };

    fn from_node(closed: Node) -> ExportNamedSpecifier
        requires { Fits closed (One (Of class.ExportNamedSpecifier)) }
        ensures { export_named_specifier_node result ≡ closed }
    {
        let (span, orig, exported) = open_three::<class::ExportNamedSpecifier, _, _, _>(
            closed,
            Kind::ExportNamedSpecifier,
        );
        ExportNamedSpecifier {
            span,
            orig,
            exported,
        }
    }

    fn into_node(self, alloc: Global) -> Result<Node, AllocError>
        ensures { IfOk result (λ closed. (closed ≡ export_named_specifier_node self) × Fits closed (One (Of class.ExportNamedSpecifier))) }
    {
        let ExportNamedSpecifier {
            span,
            orig,
            exported,
        } = self;
        close_three::<class::ExportNamedSpecifier, _, _, _>(
            alloc,
            Kind::ExportNamedSpecifier,
            (span, orig, exported),
        )
    }
}
