//! Where fields stand: Programs, their items, imports and exports.
//!
//! Printed by tools/print_table.py from tools/tree.txt.

/// A program of the goal Module (ECMA-262, Module).
pub mod module_ {
    pub const SPAN: usize = 0;

    pub const BODY: usize = 1;

    pub const SHEBANG: usize = 2;
}

/// A program of the goal Script (ECMA-262, Script).
pub mod script {
    pub const SPAN: usize = 0;

    pub const BODY: usize = 1;

    pub const SHEBANG: usize = 2;
}

/// An import (ECMA-262, ImportDeclaration).
pub mod import_decl {
    pub const SPAN: usize = 0;

    pub const SPECIFIERS: usize = 1;

    pub const SRC: usize = 2;

    pub const WITH: usize = 3;
}

/// One name of an import list (ECMA-262, ImportSpecifier).
pub mod import_named_specifier {
    pub const SPAN: usize = 0;

    pub const LOCAL: usize = 1;

    pub const IMPORTED: usize = 2;
}

/// The default import (ECMA-262, ImportedDefaultBinding).
pub mod import_default_specifier {
    pub const SPAN: usize = 0;

    pub const LOCAL: usize = 1;
}

/// The whole of a module under a name (ECMA-262, NameSpaceImport).
pub mod import_star_as_specifier {
    pub const SPAN: usize = 0;

    pub const LOCAL: usize = 1;
}

/// A declaration that is exported (ECMA-262, ExportDeclaration).
pub mod export_decl {
    pub const SPAN: usize = 0;

    pub const DECL: usize = 1;
}

/// An export list, of this module or of another (ECMA-262, NamedExports and ExportFromClause).
pub mod named_export {
    pub const SPAN: usize = 0;

    pub const SPECIFIERS: usize = 1;

    pub const SRC: usize = 2;

    pub const WITH: usize = 3;
}

/// The whole of a module, exported under a name (ECMA-262, ExportFromClause).
pub mod export_namespace_specifier {
    pub const SPAN: usize = 0;

    pub const NAME: usize = 1;
}

/// One name that is exported (ECMA-262, ExportSpecifier).
pub mod export_named_specifier {
    pub const SPAN: usize = 0;

    pub const ORIG: usize = 1;

    pub const EXPORTED: usize = 2;
}

/// A declaration as the default export (ECMA-262, ExportDeclaration).
pub mod export_default_decl {
    pub const SPAN: usize = 0;

    pub const DECL: usize = 1;
}

/// An expression as the default export (ECMA-262, ExportDeclaration).
pub mod export_default_expr {
    pub const SPAN: usize = 0;

    pub const EXPR: usize = 1;
}

/// All that another module exports (ECMA-262, ExportFromClause).
pub mod export_all {
    pub const SPAN: usize = 0;

    pub const SRC: usize = 1;

    pub const WITH: usize = 2;
}
