//! Printed by tools/print_table.py from tools/tree.txt.
ghost use Rattle.std.specs.Prelude.{◌≡◌, IfOk};
ghost use Rattle.swc_tree_node.specs.declared.kind.Class.TheVariants as class;
ghost use Rattle.swc_tree_node.specs.declared.slot.Slot.TheVariants.{One};
ghost use Rattle.swc_tree_node.specs.declared.slot.Content.TheVariants.{Node as Of};
ghost use Rattle.swc_tree_node.specs.Fits.{Fits};
ghost use Rattle.swc_tree_modules.specs.Nodes.{import_named_specifier_node};

use std::alloc::{AllocError, Global};
use swc_tree_handle::{Opened, Tree, class, clone_three, close_three, open_three};
use swc_tree_marks::{Ident, Span};
use swc_tree_node::{Kind, Node};

/// One name of an import list (ECMA-262, ImportSpecifier).
#[derive(Debug, Drop, PartialEq, Eq)]
pub struct ImportNamedSpecifier {
    pub span: Span,
    pub local: Ident,
    pub imported: Option<Tree<class::ModuleExportName>>,
}

impl Clone for ImportNamedSpecifier {
    ghost is_clone = { λ it copy. copy ≡ it };

    fn clone(&self) -> Result<ImportNamedSpecifier, AllocError> {
        let (span, local, imported) = clone_three(&self.span, &self.local, &self.imported)?;
        Ok(ImportNamedSpecifier {
            span,
            local,
            imported,
        })
    }
}

impl Opened<class::ImportNamedSpecifier> for ImportNamedSpecifier {
    ghost class = { class.ImportNamedSpecifier };

    ghost node = { import_named_specifier_node };

    fn from_node(closed: Node) -> ImportNamedSpecifier
        requires { Fits closed (One (Of class.ImportNamedSpecifier)) }
        ensures { import_named_specifier_node result ≡ closed }
    {
        let (span, local, imported) = open_three::<class::ImportNamedSpecifier, _, _, _>(
            closed,
            Kind::ImportNamedSpecifier,
        );
        ImportNamedSpecifier {
            span,
            local,
            imported,
        }
    }

    fn into_node(self, alloc: Global) -> Result<Node, AllocError>
        ensures { IfOk result (λ closed. (closed ≡ import_named_specifier_node self) × Fits closed (One (Of class.ImportNamedSpecifier))) }
    {
        let ImportNamedSpecifier {
            span,
            local,
            imported,
        } = self;
        close_three::<class::ImportNamedSpecifier, _, _, _>(
            alloc,
            Kind::ImportNamedSpecifier,
            (span, local, imported),
        )
    }
}
