//! Printed by tools/print_table.py from tools/tree.txt.
ghost use Rattle.std.specs.Prelude.{◌≡◌, IfOk};
ghost use Rattle.swc_tree_node.specs.declared.kind.Class.TheVariants as class;
ghost use Rattle.swc_tree_node.specs.declared.slot.Slot.TheVariants.{One};
ghost use Rattle.swc_tree_node.specs.declared.slot.Content.TheVariants.{Node as Of};
ghost use Rattle.swc_tree_node.specs.Fits.{Fits};
ghost use Rattle.swc_tree_modules.specs.Nodes.{import_star_as_specifier_node};

use std::alloc::{AllocError, Global};
use swc_tree_handle::{Opened, class, clone_two, close_two, open_two};
use swc_tree_marks::{Ident, Span};
use swc_tree_node::{Kind, Node};

/// The whole of a module under a name (ECMA-262, NameSpaceImport).
#[derive(Debug, Drop, PartialEq, Eq)]
pub struct ImportStarAsSpecifier {
    pub span: Span,
    pub local: Ident,
}

impl Clone for ImportStarAsSpecifier {
    ghost is_clone = { λ it copy. copy ≡ it };

    fn clone(&self) -> Result<ImportStarAsSpecifier, AllocError> {
        let (span, local) = clone_two(&self.span, &self.local)?;
        Ok(ImportStarAsSpecifier { span, local })
    }
}

impl Opened<class::ImportStarAsSpecifier> for ImportStarAsSpecifier {
    ghost class = { class.ImportStarAsSpecifier };

    ghost node = { import_star_as_specifier_node };

    fn from_node(closed: Node) -> ImportStarAsSpecifier
        requires { Fits closed (One (Of class.ImportStarAsSpecifier)) }
        ensures { import_star_as_specifier_node result ≡ closed }
    {
        let (span, local) = open_two::<class::ImportStarAsSpecifier, _, _>(
            closed,
            Kind::ImportStarAsSpecifier,
        );
        ImportStarAsSpecifier { span, local }
    }

    fn into_node(self, alloc: Global) -> Result<Node, AllocError>
        ensures { IfOk result (λ closed. (closed ≡ import_star_as_specifier_node self) × Fits closed (One (Of class.ImportStarAsSpecifier))) }
    {
        let ImportStarAsSpecifier { span, local } = self;
        close_two::<class::ImportStarAsSpecifier, _, _>(
            alloc,
            Kind::ImportStarAsSpecifier,
            (span, local),
        )
    }
}
