//! Printed by tools/print_table.py from tools/tree.txt.
ghost use Rattle.std.specs.Prelude.{◌≡◌, IfOk};
ghost use Rattle.swc_tree_node.specs.declared.kind.Class.TheVariants as class;
ghost use Rattle.swc_tree_node.specs.declared.slot.Slot.TheVariants.{One};
ghost use Rattle.swc_tree_node.specs.declared.slot.Content.TheVariants.{Node as Of};
ghost use Rattle.swc_tree_node.specs.Fits.{Fits};
ghost use Rattle.swc_tree_modules.specs.Nodes.{import_default_specifier_node};

use std::alloc::{AllocError, Global};
use swc_tree_handle::{Opened, class, clone_two, close_two, open_two};
use swc_tree_marks::{Ident, Span};
use swc_tree_node::{Kind, Node};

/// The default import (ECMA-262, ImportedDefaultBinding).
#[derive(Debug, Drop, PartialEq, Eq)]
pub struct ImportDefaultSpecifier {
    pub span: Span,
    pub local: Ident,
}

impl Clone for ImportDefaultSpecifier {
    ghost is_clone = { λ it copy. copy ≡ it };

    fn clone(&self) -> Result<ImportDefaultSpecifier, AllocError> {
        let (span, local) = clone_two(&self.span, &self.local)?;
        Ok(ImportDefaultSpecifier { span, local })
    }
}

impl Opened<class::ImportDefaultSpecifier> for ImportDefaultSpecifier {
    ghost class = { class.ImportDefaultSpecifier };

    ghost node = { import_default_specifier_node };

    fn from_node(closed: Node) -> ImportDefaultSpecifier
        requires { Fits closed (One (Of class.ImportDefaultSpecifier)) }
        ensures { import_default_specifier_node result ≡ closed }
    {
        let (span, local) = open_two::<class::ImportDefaultSpecifier, _, _>(
            closed,
            Kind::ImportDefaultSpecifier,
        );
        ImportDefaultSpecifier { span, local }
    }

    fn into_node(self, alloc: Global) -> Result<Node, AllocError>
        ensures { IfOk result (λ closed. (closed ≡ import_default_specifier_node self) × Fits closed (One (Of class.ImportDefaultSpecifier))) }
    {
        let ImportDefaultSpecifier { span, local } = self;
        close_two::<class::ImportDefaultSpecifier, _, _>(
            alloc,
            Kind::ImportDefaultSpecifier,
            (span, local),
        )
    }
}
