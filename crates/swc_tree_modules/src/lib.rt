//! Programs, their items, imports and exports.
//!
//! Each struct and sum stands one level deep: its subtrees are `Tree`s and `Trees`.
//! Printed by tools/print_table.py from tools/tree.txt.
#![tactic(auto)]

mod default_decl;
mod export_all;
mod export_decl;
mod export_default_decl;
mod export_default_expr;
mod export_named_specifier;
mod export_namespace_specifier;
mod export_specifier;
mod import_decl;
mod import_default_specifier;
mod import_named_specifier;
mod import_specifier;
mod import_star_as_specifier;
mod module_;
mod module_decl;
mod module_item;
mod named_export;
mod program;
mod script;
mod script_program;

pub use default_decl::DefaultDecl;
pub use export_all::ExportAll;
pub use export_decl::ExportDecl;
pub use export_default_decl::ExportDefaultDecl;
pub use export_default_expr::ExportDefaultExpr;
pub use export_named_specifier::ExportNamedSpecifier;
pub use export_namespace_specifier::ExportNamespaceSpecifier;
pub use export_specifier::ExportSpecifier;
pub use import_decl::ImportDecl;
pub use import_default_specifier::ImportDefaultSpecifier;
pub use import_named_specifier::ImportNamedSpecifier;
pub use import_specifier::ImportSpecifier;
pub use import_star_as_specifier::ImportStarAsSpecifier;
pub use module_::Module;
pub use module_decl::ModuleDecl;
pub use module_item::ModuleItem;
pub use named_export::NamedExport;
pub use script::Script;
