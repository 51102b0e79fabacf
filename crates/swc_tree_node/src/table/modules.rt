//! Fields: Programs, their items, imports and exports.
//!
//! Printed by tools/print_table.py from tools/tree.txt.
use crate::kind::Class;
use crate::slot::{Content, Field, Role, Slot};

pub(super) const MODULE: &[Field] = &[
    Field {
        key: "span",
        slot: Slot::One(Content::Span),
        role: Role::Plain,
    },
    Field {
        key: "body",
        slot: Slot::List(Content::Node(Class::ModuleItem)),
        role: Role::Plain,
    },
    Field {
        key: "shebang",
        slot: Slot::Optional(Content::Text),
        role: Role::Plain,
    },
];

pub(super) const SCRIPT: &[Field] = &[
    Field {
        key: "span",
        slot: Slot::One(Content::Span),
        role: Role::Plain,
    },
    Field {
        key: "body",
        slot: Slot::List(Content::Node(Class::Stmt)),
        role: Role::Plain,
    },
    Field {
        key: "shebang",
        slot: Slot::Optional(Content::Text),
        role: Role::Plain,
    },
];

pub(super) const IMPORT_DECL: &[Field] = &[
    Field {
        key: "span",
        slot: Slot::One(Content::Span),
        role: Role::Plain,
    },
    Field {
        key: "specifiers",
        slot: Slot::List(Content::Node(Class::ImportSpecifier)),
        role: Role::Plain,
    },
    Field {
        key: "src",
        slot: Slot::One(Content::Node(Class::Str)),
        role: Role::Plain,
    },
    Field {
        key: "with",
        slot: Slot::Pairs,
        role: Role::Plain,
    },
];

pub(super) const IMPORT_NAMED_SPECIFIER: &[Field] = &[
    Field {
        key: "span",
        slot: Slot::One(Content::Span),
        role: Role::Plain,
    },
    Field {
        key: "local",
        slot: Slot::One(Content::Node(Class::Ident)),
        role: Role::Import,
    },
    Field {
        key: "imported",
        slot: Slot::Optional(Content::Node(Class::ModuleExportName)),
        role: Role::Imported,
    },
];

pub(super) const IMPORT_DEFAULT_SPECIFIER: &[Field] = &[
    Field {
        key: "span",
        slot: Slot::One(Content::Span),
        role: Role::Plain,
    },
    Field {
        key: "local",
        slot: Slot::One(Content::Node(Class::Ident)),
        role: Role::Import,
    },
];

pub(super) const IMPORT_STAR_AS_SPECIFIER: &[Field] = &[
    Field {
        key: "span",
        slot: Slot::One(Content::Span),
        role: Role::Plain,
    },
    Field {
        key: "local",
        slot: Slot::One(Content::Node(Class::Ident)),
        role: Role::Import,
    },
];

pub(super) const EXPORT_DECL: &[Field] = &[
    Field {
        key: "span",
        slot: Slot::One(Content::Span),
        role: Role::Plain,
    },
    Field {
        key: "decl",
        slot: Slot::One(Content::Node(Class::Decl)),
        role: Role::Plain,
    },
];

pub(super) const NAMED_EXPORT: &[Field] = &[
    Field {
        key: "span",
        slot: Slot::One(Content::Span),
        role: Role::Plain,
    },
    Field {
        key: "specifiers",
        slot: Slot::List(Content::Node(Class::ExportSpecifier)),
        role: Role::ExportLocal,
    },
    Field {
        key: "src",
        slot: Slot::Optional(Content::Node(Class::Str)),
        role: Role::Plain,
    },
    Field {
        key: "with",
        slot: Slot::Pairs,
        role: Role::Plain,
    },
];

pub(super) const EXPORT_NAMESPACE_SPECIFIER: &[Field] = &[
    Field {
        key: "span",
        slot: Slot::One(Content::Span),
        role: Role::Plain,
    },
    Field {
        key: "name",
        slot: Slot::One(Content::Node(Class::ModuleExportName)),
        role: Role::Exported,
    },
];

pub(super) const EXPORT_NAMED_SPECIFIER: &[Field] = &[
    Field {
        key: "span",
        slot: Slot::One(Content::Span),
        role: Role::Plain,
    },
    Field {
        key: "orig",
        slot: Slot::One(Content::Node(Class::ModuleExportName)),
        role: Role::Inherited,
    },
    Field {
        key: "exported",
        slot: Slot::Optional(Content::Node(Class::ModuleExportName)),
        role: Role::Exported,
    },
];

pub(super) const EXPORT_DEFAULT_DECL: &[Field] = &[
    Field {
        key: "span",
        slot: Slot::One(Content::Span),
        role: Role::Plain,
    },
    Field {
        key: "decl",
        slot: Slot::One(Content::Node(Class::DefaultDecl)),
        role: Role::Plain,
    },
];

pub(super) const EXPORT_DEFAULT_EXPR: &[Field] = &[
    Field {
        key: "span",
        slot: Slot::One(Content::Span),
        role: Role::Plain,
    },
    Field {
        key: "expr",
        slot: Slot::One(Content::Node(Class::Expr)),
        role: Role::Reference,
    },
];

pub(super) const EXPORT_ALL: &[Field] = &[
    Field {
        key: "span",
        slot: Slot::One(Content::Span),
        role: Role::Plain,
    },
    Field {
        key: "src",
        slot: Slot::One(Content::Node(Class::Str)),
        role: Role::Plain,
    },
    Field {
        key: "with",
        slot: Slot::Pairs,
        role: Role::Plain,
    },
];
