//! Printed by tools/print_table.py from tools/tree.txt.
ghost use Rattle.std.specs.Prelude.{◌≡◌, IfOk};
ghost use Rattle.swc_tree_node.specs.declared.kind.Class.TheVariants as class;
ghost use Rattle.swc_tree_node.specs.declared.slot.Slot.TheVariants.{One};
ghost use Rattle.swc_tree_node.specs.declared.slot.Content.TheVariants.{Node as Of};
ghost use Rattle.swc_tree_node.specs.Fits.{Fits};
ghost use Rattle.swc_tree_modules.specs.Nodes.{of_export_specifier};

use crate::export_named_specifier::ExportNamedSpecifier;
use crate::export_namespace_specifier::ExportNamespaceSpecifier;
use std::alloc::{AllocError, Global};
use swc_tree_handle::{Opened, Tree, class};
use swc_tree_node::{Kind, Node};

/// One part of an export list (ECMA-262, ExportSpecifier).
#[derive(Clone, Debug, Drop, PartialEq, Eq)]
pub enum ExportSpecifier {
    Namespace(ExportNamespaceSpecifier),
    Named(ExportNamedSpecifier),
}

impl Opened<class::ExportSpecifier> for ExportSpecifier {
    ghost class = { class.ExportSpecifier };

    ghost node = { of_export_specifier };

    fn from_node(closed: Node) -> ExportSpecifier
        requires { Fits closed (One (Of class.ExportSpecifier)) }
        ensures { of_export_specifier result ≡ closed }
    {
        let tree = Tree::<class::ExportSpecifier>::from_node(closed);
        match tree.kind() {
            Kind::ExportNamespaceSpecifier => ExportSpecifier::Namespace(
                tree.narrow::<class::ExportNamespaceSpecifier>().open(),
            ),
            Kind::ExportNamedSpecifier => ExportSpecifier::Named(
                tree.narrow::<class::ExportNamedSpecifier>().open(),
            ),
            _ => unreachable!(),
        }
    }

    fn into_node(self, alloc: Global) -> Result<Node, AllocError>
        ensures { IfOk result (λ closed. (closed ≡ of_export_specifier self) × Fits closed (One (Of class.ExportSpecifier))) }
    {
        match self {
            ExportSpecifier::Namespace(opened) => opened.close_within::<class::ExportSpecifier>(
                alloc,
            ),
            ExportSpecifier::Named(opened) => opened.close_within::<class::ExportSpecifier>(alloc),
        }
    }
}
