//! Printed by tools/print_table.py from tools/tree.txt.
ghost use Rattle.std.specs.Prelude.{◌≡◌, IfOk};
ghost use Rattle.swc_tree_node.specs.declared.kind.Class.TheVariants as class;
ghost use Rattle.swc_tree_node.specs.declared.slot.Slot.TheVariants.{One};
ghost use Rattle.swc_tree_node.specs.declared.slot.Content.TheVariants.{Node as Of};
ghost use Rattle.swc_tree_node.specs.Fits.{Fits};
ghost use Rattle.swc_tree_modules.specs.Nodes.{of_import_specifier};

use crate::import_default_specifier::ImportDefaultSpecifier;
use crate::import_named_specifier::ImportNamedSpecifier;
use crate::import_star_as_specifier::ImportStarAsSpecifier;
use std::alloc::{AllocError, Global};
use swc_tree_handle::{Opened, Tree, class};
use swc_tree_node::{Kind, Node};

/// What an import binds (ECMA-262, ImportClause).
#[derive(Clone, Debug, Drop, PartialEq, Eq)]
pub enum ImportSpecifier {
    Named(ImportNamedSpecifier),
    Default(ImportDefaultSpecifier),
    Namespace(ImportStarAsSpecifier),
}

impl Opened<class::ImportSpecifier> for ImportSpecifier {
    ghost class = { class.ImportSpecifier };

    ghost node = { of_import_specifier };

    fn from_node(closed: Node) -> ImportSpecifier
        requires { Fits closed (One (Of class.ImportSpecifier)) }
        ensures { of_import_specifier result ≡ closed }
    {
        let tree = Tree::<class::ImportSpecifier>::from_node(closed);
        match tree.kind() {
            Kind::ImportNamedSpecifier => ImportSpecifier::Named(
                tree.narrow::<class::ImportNamedSpecifier>().open(),
            ),
            Kind::ImportDefaultSpecifier => ImportSpecifier::Default(
                tree.narrow::<class::ImportDefaultSpecifier>().open(),
            ),
            Kind::ImportStarAsSpecifier => ImportSpecifier::Namespace(
                tree.narrow::<class::ImportStarAsSpecifier>().open(),
            ),
            _ => unreachable!(),
        }
    }

    fn into_node(self, alloc: Global) -> Result<Node, AllocError>
        ensures { IfOk result (λ closed. (closed ≡ of_import_specifier self) × Fits closed (One (Of class.ImportSpecifier))) }
    {
        match self {
            ImportSpecifier::Named(opened) => opened.close_within::<class::ImportSpecifier>(alloc),
            ImportSpecifier::Default(opened) => opened.close_within::<class::ImportSpecifier>(
                alloc,
            ),
            ImportSpecifier::Namespace(opened) => opened.close_within::<class::ImportSpecifier>(
                alloc,
            ),
        }
    }
}
