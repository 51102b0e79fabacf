//! Printed by tools/print_table.py from tools/tree.txt.
ghost use Rattle.std.specs.Prelude.{◌≡◌, IfOk};
ghost use Rattle.swc_tree_node.specs.declared.kind.Class.TheVariants as class;
ghost use Rattle.swc_tree_node.specs.declared.slot.Slot.TheVariants.{One};
ghost use Rattle.swc_tree_node.specs.declared.slot.Content.TheVariants.{Node as Of};
ghost use Rattle.swc_tree_node.specs.Fits.{Fits};
ghost use Rattle.swc_tree_statements.specs.Nodes.{of_decl};

use crate::class_decl::ClassDecl;
use crate::fn_decl::FnDecl;
use crate::using_decl::UsingDecl;
use crate::var_decl::VarDecl;
use std::alloc::{AllocError, Global};
use swc_tree_handle::{Opened, Tree, class};
use swc_tree_node::{Kind, Node};
use swc_tree_types::{TsEnumDecl, TsInterfaceDecl, TsModuleDecl, TsTypeAliasDecl};

/// A declaration (ECMA-262, Declaration and VariableStatement).
#[derive(Clone, Debug, Drop, PartialEq, Eq)]
pub enum Decl {
    Class(ClassDecl),
    Fn(FnDecl),
    Var(VarDecl),
    Using(UsingDecl),
    TsInterface(TsInterfaceDecl),
    TsTypeAlias(TsTypeAliasDecl),
    TsEnum(TsEnumDecl),
    TsModule(TsModuleDecl),
}

impl Opened<class::Decl> for Decl {
    ghost class = { class.Decl };

    ghost node = { of_decl };

    fn from_node(closed: Node) -> Decl
        requires { Fits closed (One (Of class.Decl)) }
        ensures { of_decl result ≡ closed }
    {
        let tree = Tree::<class::Decl>::from_node(closed);
        match tree.kind() {
            Kind::ClassDecl => Decl::Class(tree.narrow::<class::ClassDecl>().open()),
            Kind::FnDecl => Decl::Fn(tree.narrow::<class::FnDecl>().open()),
            Kind::VarDecl => Decl::Var(tree.narrow::<class::VarDecl>().open()),
            Kind::UsingDecl => Decl::Using(tree.narrow::<class::UsingDecl>().open()),
            Kind::TsInterfaceDecl => Decl::TsInterface(
                tree.narrow::<class::TsInterfaceDecl>().open(),
            ),
            Kind::TsTypeAliasDecl => Decl::TsTypeAlias(
                tree.narrow::<class::TsTypeAliasDecl>().open(),
            ),
            Kind::TsEnumDecl => Decl::TsEnum(tree.narrow::<class::TsEnumDecl>().open()),
            Kind::TsModuleDecl => Decl::TsModule(tree.narrow::<class::TsModuleDecl>().open()),
            _ => unreachable!(),
        }
    }

    fn into_node(self, alloc: Global) -> Result<Node, AllocError>
        ensures { IfOk result (λ closed. (closed ≡ of_decl self) × Fits closed (One (Of class.Decl))) }
    {
        match self {
            Decl::Class(opened) => opened.close_within::<class::Decl>(alloc),
            Decl::Fn(opened) => opened.close_within::<class::Decl>(alloc),
            Decl::Var(opened) => opened.close_within::<class::Decl>(alloc),
            Decl::Using(opened) => opened.close_within::<class::Decl>(alloc),
            Decl::TsInterface(opened) => opened.close_within::<class::Decl>(alloc),
            Decl::TsTypeAlias(opened) => opened.close_within::<class::Decl>(alloc),
            Decl::TsEnum(opened) => opened.close_within::<class::Decl>(alloc),
            Decl::TsModule(opened) => opened.close_within::<class::Decl>(alloc),
        }
    }
}
