//! Printed by tools/print_table.py from tools/tree.txt.
ghost use Rattle.std.specs.Prelude.{◌≡◌, IfOk};
ghost use Rattle.swc_tree_node.specs.declared.kind.Class.TheVariants as class;
ghost use Rattle.swc_tree_node.specs.declared.slot.Slot.TheVariants.{One};
ghost use Rattle.swc_tree_node.specs.declared.slot.Content.TheVariants.{Node as Of};
ghost use Rattle.swc_tree_node.specs.Fits.{Fits};
ghost use Rattle.swc_tree_modules.specs.Nodes.{of_module_item};

use crate::module_decl::ModuleDecl;
use std::alloc::{AllocError, Global};
use swc_tree_handle::{Opened, Tree, class};
use swc_tree_node::{Kind, Node};
use swc_tree_statements::Stmt;

/// An item of a module (ECMA-262, ModuleItem).
#[derive(Clone, Debug, Drop, PartialEq, Eq)]
pub enum ModuleItem {
    ModuleDecl(ModuleDecl),
    Stmt(Stmt),
}

impl Opened<class::ModuleItem> for ModuleItem {
    ghost class = { class.ModuleItem };

    ghost node = { of_module_item };

    fn from_node(closed: Node) -> ModuleItem
        requires { Fits closed (One (Of class.ModuleItem)) }
        ensures { of_module_item result ≡ closed }
    {
        let tree = Tree::<class::ModuleItem>::from_node(closed);
        match tree.kind() {
            Kind::ImportDecl
            | Kind::ExportDecl
            | Kind::NamedExport
            | Kind::ExportDefaultDecl
            | Kind::ExportDefaultExpr
            | Kind::ExportAll => ModuleItem::ModuleDecl(tree.narrow::<class::ModuleDecl>().open()),
            _ => ModuleItem::Stmt(tree.narrow::<class::Stmt>().open()),
        }
    }

    fn into_node(self, alloc: Global) -> Result<Node, AllocError>
        ensures { IfOk result (λ closed. (closed ≡ of_module_item self) × Fits closed (One (Of class.ModuleItem))) }
    {
        match self {
            ModuleItem::ModuleDecl(opened) => opened.close_within::<class::ModuleItem>(alloc),
            ModuleItem::Stmt(opened) => opened.close_within::<class::ModuleItem>(alloc),
        }
    }
}
