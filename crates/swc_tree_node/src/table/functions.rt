//! Fields: Functions, classes and their members.
//!
//! Printed by tools/print_table.py from tools/tree.txt.
use crate::kind::{Class, WordClass};
use crate::slot::{Content, Field, Role, Slot};

pub(super) const FUNCTION: &[Field] = &[
    Field {
        key: "span",
        slot: Slot::One(Content::Span),
        role: Role::Plain,
    },
    Field {
        key: "params",
        slot: Slot::List(Content::Node(Class::Param)),
        role: Role::Plain,
    },
    Field {
        key: "body",
        slot: Slot::One(Content::Node(Class::BlockStmt)),
        role: Role::FunctionBody,
    },
    Field {
        key: "is_generator",
        slot: Slot::One(Content::Flag),
        role: Role::Plain,
    },
    Field {
        key: "is_async",
        slot: Slot::One(Content::Flag),
        role: Role::Plain,
    },
];

pub(super) const PARAM: &[Field] = &[
    Field {
        key: "span",
        slot: Slot::One(Content::Span),
        role: Role::Plain,
    },
    Field {
        key: "pat",
        slot: Slot::One(Content::Node(Class::Pat)),
        role: Role::Parameter,
    },
];

pub(super) const FN_EXPR: &[Field] = &[
    Field {
        key: "ident",
        slot: Slot::Optional(Content::Node(Class::Ident)),
        role: Role::OwnName,
    },
    Field {
        key: "function",
        slot: Slot::One(Content::Node(Class::Function)),
        role: Role::Plain,
    },
];

pub(super) const ARROW_EXPR: &[Field] = &[
    Field {
        key: "span",
        slot: Slot::One(Content::Span),
        role: Role::Plain,
    },
    Field {
        key: "params",
        slot: Slot::List(Content::Node(Class::Pat)),
        role: Role::Parameter,
    },
    Field {
        key: "body",
        slot: Slot::One(Content::Node(Class::BlockStmtOrExpr)),
        role: Role::FunctionBody,
    },
    Field {
        key: "is_async",
        slot: Slot::One(Content::Flag),
        role: Role::Plain,
    },
];

pub(super) const CLASS: &[Field] = &[
    Field {
        key: "span",
        slot: Slot::One(Content::Span),
        role: Role::Plain,
    },
    Field {
        key: "super_class",
        slot: Slot::Optional(Content::Node(Class::Expr)),
        role: Role::Reference,
    },
    Field {
        key: "body",
        slot: Slot::List(Content::Node(Class::ClassMember)),
        role: Role::Plain,
    },
];

pub(super) const CLASS_EXPR: &[Field] = &[
    Field {
        key: "ident",
        slot: Slot::Optional(Content::Node(Class::Ident)),
        role: Role::OwnName,
    },
    Field {
        key: "class",
        slot: Slot::One(Content::Node(Class::Class)),
        role: Role::Plain,
    },
];

pub(super) const CONSTRUCTOR: &[Field] = &[
    Field {
        key: "span",
        slot: Slot::One(Content::Span),
        role: Role::Plain,
    },
    Field {
        key: "key",
        slot: Slot::One(Content::Node(Class::PropName)),
        role: Role::Plain,
    },
    Field {
        key: "params",
        slot: Slot::List(Content::Node(Class::Param)),
        role: Role::Plain,
    },
    Field {
        key: "body",
        slot: Slot::One(Content::Node(Class::BlockStmt)),
        role: Role::FunctionBody,
    },
];

pub(super) const CLASS_METHOD: &[Field] = &[
    Field {
        key: "span",
        slot: Slot::One(Content::Span),
        role: Role::Plain,
    },
    Field {
        key: "key",
        slot: Slot::One(Content::Node(Class::PropName)),
        role: Role::Plain,
    },
    Field {
        key: "function",
        slot: Slot::One(Content::Node(Class::Function)),
        role: Role::Plain,
    },
    Field {
        key: "kind",
        slot: Slot::One(Content::Word(WordClass::MethodKind)),
        role: Role::Plain,
    },
    Field {
        key: "is_static",
        slot: Slot::One(Content::Flag),
        role: Role::Plain,
    },
];

pub(super) const PRIVATE_METHOD: &[Field] = &[
    Field {
        key: "span",
        slot: Slot::One(Content::Span),
        role: Role::Plain,
    },
    Field {
        key: "key",
        slot: Slot::One(Content::Node(Class::PrivateName)),
        role: Role::Plain,
    },
    Field {
        key: "function",
        slot: Slot::One(Content::Node(Class::Function)),
        role: Role::Plain,
    },
    Field {
        key: "kind",
        slot: Slot::One(Content::Word(WordClass::MethodKind)),
        role: Role::Plain,
    },
    Field {
        key: "is_static",
        slot: Slot::One(Content::Flag),
        role: Role::Plain,
    },
];

pub(super) const CLASS_PROP: &[Field] = &[
    Field {
        key: "span",
        slot: Slot::One(Content::Span),
        role: Role::Plain,
    },
    Field {
        key: "key",
        slot: Slot::One(Content::Node(Class::PropName)),
        role: Role::Plain,
    },
    Field {
        key: "value",
        slot: Slot::Optional(Content::Node(Class::Expr)),
        role: Role::Reference,
    },
    Field {
        key: "is_static",
        slot: Slot::One(Content::Flag),
        role: Role::Plain,
    },
];

pub(super) const PRIVATE_PROP: &[Field] = &[
    Field {
        key: "span",
        slot: Slot::One(Content::Span),
        role: Role::Plain,
    },
    Field {
        key: "key",
        slot: Slot::One(Content::Node(Class::PrivateName)),
        role: Role::Plain,
    },
    Field {
        key: "value",
        slot: Slot::Optional(Content::Node(Class::Expr)),
        role: Role::Reference,
    },
    Field {
        key: "is_static",
        slot: Slot::One(Content::Flag),
        role: Role::Plain,
    },
];

pub(super) const STATIC_BLOCK: &[Field] = &[
    Field {
        key: "span",
        slot: Slot::One(Content::Span),
        role: Role::Plain,
    },
    Field {
        key: "body",
        slot: Slot::One(Content::Node(Class::BlockStmt)),
        role: Role::FunctionBody,
    },
];

pub(super) const COMPUTED_PROP_NAME: &[Field] = &[
    Field {
        key: "span",
        slot: Slot::One(Content::Span),
        role: Role::Plain,
    },
    Field {
        key: "expr",
        slot: Slot::One(Content::Node(Class::Expr)),
        role: Role::Reference,
    },
];

pub(super) const METHOD_PROP: &[Field] = &[
    Field {
        key: "key",
        slot: Slot::One(Content::Node(Class::PropName)),
        role: Role::Plain,
    },
    Field {
        key: "function",
        slot: Slot::One(Content::Node(Class::Function)),
        role: Role::Plain,
    },
];

pub(super) const GETTER_PROP: &[Field] = &[
    Field {
        key: "span",
        slot: Slot::One(Content::Span),
        role: Role::Plain,
    },
    Field {
        key: "key",
        slot: Slot::One(Content::Node(Class::PropName)),
        role: Role::Plain,
    },
    Field {
        key: "body",
        slot: Slot::One(Content::Node(Class::BlockStmt)),
        role: Role::FunctionBody,
    },
];

pub(super) const SETTER_PROP: &[Field] = &[
    Field {
        key: "span",
        slot: Slot::One(Content::Span),
        role: Role::Plain,
    },
    Field {
        key: "key",
        slot: Slot::One(Content::Node(Class::PropName)),
        role: Role::Plain,
    },
    Field {
        key: "param",
        slot: Slot::One(Content::Node(Class::Pat)),
        role: Role::Parameter,
    },
    Field {
        key: "body",
        slot: Slot::One(Content::Node(Class::BlockStmt)),
        role: Role::FunctionBody,
    },
];
