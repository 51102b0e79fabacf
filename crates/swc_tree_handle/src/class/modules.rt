//! The classes of the family modules.
//!
//! Printed by tools/print_table.py from tools/tree.txt.
use crate::class::Syntax;

/// The class `Module`.
pub struct Module;

impl Syntax for Module {
    ghost use Rattle.swc_tree_node.specs.declared.kind.Class.TheVariants as class;

    ghost class = { class.Module };
}

/// The class `Script`.
pub struct Script;

impl Syntax for Script {
    ghost use Rattle.swc_tree_node.specs.declared.kind.Class.TheVariants as class;

    ghost class = { class.Script };
}

/// The class `ImportDecl`.
pub struct ImportDecl;

impl Syntax for ImportDecl {
    ghost use Rattle.swc_tree_node.specs.declared.kind.Class.TheVariants as class;

    ghost class = { class.ImportDecl };
}

/// The class `ImportNamedSpecifier`.
pub struct ImportNamedSpecifier;

impl Syntax for ImportNamedSpecifier {
    ghost use Rattle.swc_tree_node.specs.declared.kind.Class.TheVariants as class;

    ghost class = { class.ImportNamedSpecifier };
}

/// The class `ImportDefaultSpecifier`.
pub struct ImportDefaultSpecifier;

impl Syntax for ImportDefaultSpecifier {
    ghost use Rattle.swc_tree_node.specs.declared.kind.Class.TheVariants as class;

    ghost class = { class.ImportDefaultSpecifier };
}

/// The class `ImportStarAsSpecifier`.
pub struct ImportStarAsSpecifier;

impl Syntax for ImportStarAsSpecifier {
    ghost use Rattle.swc_tree_node.specs.declared.kind.Class.TheVariants as class;

    ghost class = { class.ImportStarAsSpecifier };
}

/// The class `ExportDecl`.
pub struct ExportDecl;

impl Syntax for ExportDecl {
    ghost use Rattle.swc_tree_node.specs.declared.kind.Class.TheVariants as class;

    ghost class = { class.ExportDecl };
}

/// The class `NamedExport`.
pub struct NamedExport;

impl Syntax for NamedExport {
    ghost use Rattle.swc_tree_node.specs.declared.kind.Class.TheVariants as class;

    ghost class = { class.NamedExport };
}

/// The class `ExportNamespaceSpecifier`.
pub struct ExportNamespaceSpecifier;

impl Syntax for ExportNamespaceSpecifier {
    ghost use Rattle.swc_tree_node.specs.declared.kind.Class.TheVariants as class;

    ghost class = { class.ExportNamespaceSpecifier };
}

/// The class `ExportNamedSpecifier`.
pub struct ExportNamedSpecifier;

impl Syntax for ExportNamedSpecifier {
    ghost use Rattle.swc_tree_node.specs.declared.kind.Class.TheVariants as class;

    ghost class = { class.ExportNamedSpecifier };
}

/// The class `ExportDefaultDecl`.
pub struct ExportDefaultDecl;

impl Syntax for ExportDefaultDecl {
    ghost use Rattle.swc_tree_node.specs.declared.kind.Class.TheVariants as class;

    ghost class = { class.ExportDefaultDecl };
}

/// The class `ExportDefaultExpr`.
pub struct ExportDefaultExpr;

impl Syntax for ExportDefaultExpr {
    ghost use Rattle.swc_tree_node.specs.declared.kind.Class.TheVariants as class;

    ghost class = { class.ExportDefaultExpr };
}

/// The class `ExportAll`.
pub struct ExportAll;

impl Syntax for ExportAll {
    ghost use Rattle.swc_tree_node.specs.declared.kind.Class.TheVariants as class;

    ghost class = { class.ExportAll };
}

/// The class `ModuleItem`.
pub struct ModuleItem;

impl Syntax for ModuleItem {
    ghost use Rattle.swc_tree_node.specs.declared.kind.Class.TheVariants as class;

    ghost class = { class.ModuleItem };
}

/// The class `ModuleDecl`.
pub struct ModuleDecl;

impl Syntax for ModuleDecl {
    ghost use Rattle.swc_tree_node.specs.declared.kind.Class.TheVariants as class;

    ghost class = { class.ModuleDecl };
}

/// The class `ImportSpecifier`.
pub struct ImportSpecifier;

impl Syntax for ImportSpecifier {
    ghost use Rattle.swc_tree_node.specs.declared.kind.Class.TheVariants as class;

    ghost class = { class.ImportSpecifier };
}

/// The class `ExportSpecifier`.
pub struct ExportSpecifier;

impl Syntax for ExportSpecifier {
    ghost use Rattle.swc_tree_node.specs.declared.kind.Class.TheVariants as class;

    ghost class = { class.ExportSpecifier };
}

/// The class `DefaultDecl`.
pub struct DefaultDecl;

impl Syntax for DefaultDecl {
    ghost use Rattle.swc_tree_node.specs.declared.kind.Class.TheVariants as class;

    ghost class = { class.DefaultDecl };
}
