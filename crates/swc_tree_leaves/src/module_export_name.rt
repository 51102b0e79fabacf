//! Printed by tools/print_table.py from tools/tree.txt.
ghost use Rattle.std.specs.Prelude.{◌≡◌, IfOk};
ghost use Rattle.swc_tree_node.specs.declared.kind.Class.TheVariants as class;
ghost use Rattle.swc_tree_node.specs.declared.slot.Slot.TheVariants.{One};
ghost use Rattle.swc_tree_node.specs.declared.slot.Content.TheVariants.{Node as Of};
ghost use Rattle.swc_tree_node.specs.Fits.{Fits};
ghost use Rattle.swc_tree_leaves.specs.Nodes.{of_module_export_name};

use crate::str::Str;
use std::alloc::{AllocError, Global};
use swc_tree_handle::{Opened, Tree, class};
use swc_tree_marks::Ident;
use swc_tree_node::{Kind, Node};

/// A name under which something is exported or imported (ECMA-262, ModuleExportName).
#[derive(Clone, Debug, Drop, PartialEq, Eq)]
pub enum ModuleExportName {
    Ident(Ident),
    Str(Str),
}

impl Opened<class::ModuleExportName> for ModuleExportName {
    ghost class = { class.ModuleExportName };

    ghost node = { of_module_export_name };

    fn from_node(closed: Node) -> ModuleExportName
        requires { Fits closed (One (Of class.ModuleExportName)) }
        ensures { of_module_export_name result ≡ closed }
    {
        let tree = Tree::<class::ModuleExportName>::from_node(closed);
        match tree.kind() {
            Kind::Ident => ModuleExportName::Ident(tree.narrow::<class::Ident>().open()),
            Kind::Str => ModuleExportName::Str(tree.narrow::<class::Str>().open()),
            _ => unreachable!(),
        }
    }

    fn into_node(self, alloc: Global) -> Result<Node, AllocError>
        ensures { IfOk result (λ closed. (closed ≡ of_module_export_name self) × Fits closed (One (Of class.ModuleExportName))) }
    {
        match self {
            ModuleExportName::Ident(opened) => opened.close_within::<class::ModuleExportName>(
                alloc,
            ),
            ModuleExportName::Str(opened) => opened.close_within::<class::ModuleExportName>(alloc),
        }
    }
}
