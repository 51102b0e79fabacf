//! Fields: Blocks, statements and declarations.
//!
//! Printed by tools/print_table.py from tools/tree.txt.
use crate::kind::{Class, WordClass};
use crate::slot::{Content, Field, Role, Slot};

pub(super) const CLASS_DECL: &[Field] = &[
    Field {
        key: "ident",
        slot: Slot::One(Content::Node(Class::Ident)),
        role: Role::Class,
    },
    Field {
        key: "class",
        slot: Slot::One(Content::Node(Class::Class)),
        role: Role::Plain,
    },
];

pub(super) const FN_DECL: &[Field] = &[
    Field {
        key: "ident",
        slot: Slot::One(Content::Node(Class::Ident)),
        role: Role::Function,
    },
    Field {
        key: "function",
        slot: Slot::One(Content::Node(Class::Function)),
        role: Role::Plain,
    },
];

pub(super) const VAR_DECL: &[Field] = &[
    Field {
        key: "span",
        slot: Slot::One(Content::Span),
        role: Role::Plain,
    },
    Field {
        key: "kind",
        slot: Slot::One(Content::Word(WordClass::VarDeclKind)),
        role: Role::Plain,
    },
    Field {
        key: "decls",
        slot: Slot::List(Content::Node(Class::VarDeclarator)),
        role: Role::Declared,
    },
];

pub(super) const USING_DECL: &[Field] = &[
    Field {
        key: "span",
        slot: Slot::One(Content::Span),
        role: Role::Plain,
    },
    Field {
        key: "is_await",
        slot: Slot::One(Content::Flag),
        role: Role::Plain,
    },
    Field {
        key: "decls",
        slot: Slot::List(Content::Node(Class::VarDeclarator)),
        role: Role::Lexical,
    },
];

pub(super) const VAR_DECLARATOR: &[Field] = &[
    Field {
        key: "span",
        slot: Slot::One(Content::Span),
        role: Role::Plain,
    },
    Field {
        key: "name",
        slot: Slot::One(Content::Node(Class::Pat)),
        role: Role::Inherited,
    },
    Field {
        key: "init",
        slot: Slot::Optional(Content::Node(Class::Expr)),
        role: Role::Reference,
    },
];

pub(super) const BLOCK_STMT: &[Field] = &[
    Field {
        key: "span",
        slot: Slot::One(Content::Span),
        role: Role::Plain,
    },
    Field {
        key: "stmts",
        slot: Slot::List(Content::Node(Class::Stmt)),
        role: Role::Plain,
    },
];

pub(super) const EXPR_STMT: &[Field] = &[
    Field {
        key: "span",
        slot: Slot::One(Content::Span),
        role: Role::Plain,
    },
    Field {
        key: "expr",
        slot: Slot::One(Content::Node(Class::Expr)),
        role: Role::Reference,
    },
];

pub(super) const WITH_STMT: &[Field] = &[
    Field {
        key: "span",
        slot: Slot::One(Content::Span),
        role: Role::Plain,
    },
    Field {
        key: "obj",
        slot: Slot::One(Content::Node(Class::Expr)),
        role: Role::Reference,
    },
    Field {
        key: "body",
        slot: Slot::One(Content::Node(Class::Stmt)),
        role: Role::Plain,
    },
];

pub(super) const RETURN_STMT: &[Field] = &[
    Field {
        key: "span",
        slot: Slot::One(Content::Span),
        role: Role::Plain,
    },
    Field {
        key: "arg",
        slot: Slot::Optional(Content::Node(Class::Expr)),
        role: Role::Reference,
    },
];

pub(super) const THROW_STMT: &[Field] = &[
    Field {
        key: "span",
        slot: Slot::One(Content::Span),
        role: Role::Plain,
    },
    Field {
        key: "arg",
        slot: Slot::One(Content::Node(Class::Expr)),
        role: Role::Reference,
    },
];

pub(super) const LABELED_STMT: &[Field] = &[
    Field {
        key: "span",
        slot: Slot::One(Content::Span),
        role: Role::Plain,
    },
    Field {
        key: "label",
        slot: Slot::One(Content::Node(Class::Ident)),
        role: Role::Label,
    },
    Field {
        key: "body",
        slot: Slot::One(Content::Node(Class::Stmt)),
        role: Role::Plain,
    },
];

pub(super) const IF_STMT: &[Field] = &[
    Field {
        key: "span",
        slot: Slot::One(Content::Span),
        role: Role::Plain,
    },
    Field {
        key: "test",
        slot: Slot::One(Content::Node(Class::Expr)),
        role: Role::Reference,
    },
    Field {
        key: "cons",
        slot: Slot::One(Content::Node(Class::Stmt)),
        role: Role::Plain,
    },
    Field {
        key: "alt",
        slot: Slot::Optional(Content::Node(Class::Stmt)),
        role: Role::Plain,
    },
];

pub(super) const SWITCH_STMT: &[Field] = &[
    Field {
        key: "span",
        slot: Slot::One(Content::Span),
        role: Role::Plain,
    },
    Field {
        key: "discriminant",
        slot: Slot::One(Content::Node(Class::Expr)),
        role: Role::Reference,
    },
    Field {
        key: "cases",
        slot: Slot::List(Content::Node(Class::SwitchCase)),
        role: Role::Plain,
    },
];

pub(super) const SWITCH_CASE: &[Field] = &[
    Field {
        key: "span",
        slot: Slot::One(Content::Span),
        role: Role::Plain,
    },
    Field {
        key: "test",
        slot: Slot::Optional(Content::Node(Class::Expr)),
        role: Role::Reference,
    },
    Field {
        key: "cons",
        slot: Slot::List(Content::Node(Class::Stmt)),
        role: Role::Plain,
    },
];

pub(super) const TRY_STMT: &[Field] = &[
    Field {
        key: "span",
        slot: Slot::One(Content::Span),
        role: Role::Plain,
    },
    Field {
        key: "block",
        slot: Slot::One(Content::Node(Class::BlockStmt)),
        role: Role::Plain,
    },
    Field {
        key: "handler",
        slot: Slot::Optional(Content::Node(Class::CatchClause)),
        role: Role::Plain,
    },
    Field {
        key: "finalizer",
        slot: Slot::Optional(Content::Node(Class::BlockStmt)),
        role: Role::Plain,
    },
];

pub(super) const CATCH_CLAUSE: &[Field] = &[
    Field {
        key: "span",
        slot: Slot::One(Content::Span),
        role: Role::Plain,
    },
    Field {
        key: "param",
        slot: Slot::Optional(Content::Node(Class::Pat)),
        role: Role::Catch,
    },
    Field {
        key: "body",
        slot: Slot::One(Content::Node(Class::BlockStmt)),
        role: Role::FunctionBody,
    },
];

pub(super) const WHILE_STMT: &[Field] = &[
    Field {
        key: "span",
        slot: Slot::One(Content::Span),
        role: Role::Plain,
    },
    Field {
        key: "test",
        slot: Slot::One(Content::Node(Class::Expr)),
        role: Role::Reference,
    },
    Field {
        key: "body",
        slot: Slot::One(Content::Node(Class::Stmt)),
        role: Role::Plain,
    },
];

pub(super) const DO_WHILE_STMT: &[Field] = &[
    Field {
        key: "span",
        slot: Slot::One(Content::Span),
        role: Role::Plain,
    },
    Field {
        key: "body",
        slot: Slot::One(Content::Node(Class::Stmt)),
        role: Role::Plain,
    },
    Field {
        key: "test",
        slot: Slot::One(Content::Node(Class::Expr)),
        role: Role::Reference,
    },
];

pub(super) const FOR_STMT: &[Field] = &[
    Field {
        key: "span",
        slot: Slot::One(Content::Span),
        role: Role::Plain,
    },
    Field {
        key: "init",
        slot: Slot::Optional(Content::Node(Class::VarDeclOrExpr)),
        role: Role::Reference,
    },
    Field {
        key: "test",
        slot: Slot::Optional(Content::Node(Class::Expr)),
        role: Role::Reference,
    },
    Field {
        key: "update",
        slot: Slot::Optional(Content::Node(Class::Expr)),
        role: Role::Reference,
    },
    Field {
        key: "body",
        slot: Slot::One(Content::Node(Class::Stmt)),
        role: Role::Plain,
    },
];

pub(super) const FOR_IN_STMT: &[Field] = &[
    Field {
        key: "span",
        slot: Slot::One(Content::Span),
        role: Role::Plain,
    },
    Field {
        key: "left",
        slot: Slot::One(Content::Node(Class::ForHead)),
        role: Role::Reference,
    },
    Field {
        key: "right",
        slot: Slot::One(Content::Node(Class::Expr)),
        role: Role::Reference,
    },
    Field {
        key: "body",
        slot: Slot::One(Content::Node(Class::Stmt)),
        role: Role::Plain,
    },
];

pub(super) const FOR_OF_STMT: &[Field] = &[
    Field {
        key: "span",
        slot: Slot::One(Content::Span),
        role: Role::Plain,
    },
    Field {
        key: "is_await",
        slot: Slot::One(Content::Flag),
        role: Role::Plain,
    },
    Field {
        key: "left",
        slot: Slot::One(Content::Node(Class::ForHead)),
        role: Role::Reference,
    },
    Field {
        key: "right",
        slot: Slot::One(Content::Node(Class::Expr)),
        role: Role::Reference,
    },
    Field {
        key: "body",
        slot: Slot::One(Content::Node(Class::Stmt)),
        role: Role::Plain,
    },
];
