//! Printed by tools/print_table.py from tools/tree.txt.
ghost use Rattle.std.specs.Prelude.{◌≡◌, IfOk};
ghost use Rattle.swc_tree_node.specs.declared.kind.Class.TheVariants as class;
ghost use Rattle.swc_tree_node.specs.declared.slot.Slot.TheVariants.{One};
ghost use Rattle.swc_tree_node.specs.declared.slot.Content.TheVariants.{Node as Of};
ghost use Rattle.swc_tree_node.specs.Fits.{Fits};
ghost use Rattle.swc_tree_modules.specs.Nodes.{of_module_decl};

use crate::export_all::ExportAll;
use crate::export_decl::ExportDecl;
use crate::export_default_decl::ExportDefaultDecl;
use crate::export_default_expr::ExportDefaultExpr;
use crate::import_decl::ImportDecl;
use crate::named_export::NamedExport;
use std::alloc::{AllocError, Global};
use swc_tree_handle::{Opened, Tree, class};
use swc_tree_node::{Kind, Node};

/// An import or an export (ECMA-262, ImportDeclaration and ExportDeclaration).
#[derive(Clone, Debug, Drop, PartialEq, Eq)]
pub enum ModuleDecl {
    Import(ImportDecl),
    ExportDecl(ExportDecl),
    ExportNamed(NamedExport),
    ExportDefaultDecl(ExportDefaultDecl),
    ExportDefaultExpr(ExportDefaultExpr),
    ExportAll(ExportAll),
}

impl Opened<class::ModuleDecl> for ModuleDecl {
    ghost class = { class.ModuleDecl };

    ghost node = { of_module_decl };

    fn from_node(closed: Node) -> ModuleDecl
        requires { Fits closed (One (Of class.ModuleDecl)) }
        ensures { of_module_decl result ≡ closed }
    {
        let tree = Tree::<class::ModuleDecl>::from_node(closed);
        match tree.kind() {
            Kind::ImportDecl => ModuleDecl::Import(tree.narrow::<class::ImportDecl>().open()),
            Kind::ExportDecl => ModuleDecl::ExportDecl(tree.narrow::<class::ExportDecl>().open()),
            Kind::NamedExport => ModuleDecl::ExportNamed(
                tree.narrow::<class::NamedExport>().open(),
            ),
            Kind::ExportDefaultDecl => ModuleDecl::ExportDefaultDecl(
                tree.narrow::<class::ExportDefaultDecl>().open(),
            ),
            Kind::ExportDefaultExpr => ModuleDecl::ExportDefaultExpr(
                tree.narrow::<class::ExportDefaultExpr>().open(),
            ),
            Kind::ExportAll => ModuleDecl::ExportAll(tree.narrow::<class::ExportAll>().open()),
            _ => unreachable!(),
        }
    }

    fn into_node(self, alloc: Global) -> Result<Node, AllocError>
        ensures { IfOk result (λ closed. (closed ≡ of_module_decl self) × Fits closed (One (Of class.ModuleDecl))) }
    {
        match self {
            ModuleDecl::Import(opened) => opened.close_within::<class::ModuleDecl>(alloc),
            ModuleDecl::ExportDecl(opened) => opened.close_within::<class::ModuleDecl>(alloc),
            ModuleDecl::ExportNamed(opened) => opened.close_within::<class::ModuleDecl>(alloc),
            ModuleDecl::ExportDefaultDecl(opened) => opened.close_within::<class::ModuleDecl>(
                alloc,
            ),
            ModuleDecl::ExportDefaultExpr(opened) => opened.close_within::<class::ModuleDecl>(
                alloc,
            ),
            ModuleDecl::ExportAll(opened) => opened.close_within::<class::ModuleDecl>(alloc),
        }
    }
}
