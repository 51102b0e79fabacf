//! Fields: Types, and what declares them.
//!
//! Printed by tools/print_table.py from tools/tree.txt.
use crate::kind::Class;
use crate::slot::{Content, Field, Role, Slot};

pub(super) const TS_INTERFACE_DECL: &[Field] = &[
    Field {
        key: "span",
        slot: Slot::One(Content::Span),
        role: Role::Plain,
    },
    Field {
        key: "id",
        slot: Slot::One(Content::Node(Class::Ident)),
        role: Role::TypeName,
    },
    Field {
        key: "type_params",
        slot: Slot::List(Content::Node(Class::TsTypeParam)),
        role: Role::Plain,
    },
    Field {
        key: "extends",
        slot: Slot::List(Content::Node(Class::TsTypeRef)),
        role: Role::Plain,
    },
    Field {
        key: "body",
        slot: Slot::List(Content::Node(Class::TsPropertySignature)),
        role: Role::Plain,
    },
];

pub(super) const TS_TYPE_ALIAS_DECL: &[Field] = &[
    Field {
        key: "span",
        slot: Slot::One(Content::Span),
        role: Role::Plain,
    },
    Field {
        key: "id",
        slot: Slot::One(Content::Node(Class::Ident)),
        role: Role::TypeName,
    },
    Field {
        key: "type_params",
        slot: Slot::List(Content::Node(Class::TsTypeParam)),
        role: Role::Plain,
    },
    Field {
        key: "type_ann",
        slot: Slot::One(Content::Node(Class::TsType)),
        role: Role::Plain,
    },
];

pub(super) const TS_TYPE_PARAM: &[Field] = &[
    Field {
        key: "span",
        slot: Slot::One(Content::Span),
        role: Role::Plain,
    },
    Field {
        key: "name",
        slot: Slot::One(Content::Node(Class::Ident)),
        role: Role::TypeName,
    },
    Field {
        key: "constraint",
        slot: Slot::Optional(Content::Node(Class::TsType)),
        role: Role::Plain,
    },
    Field {
        key: "default",
        slot: Slot::Optional(Content::Node(Class::TsType)),
        role: Role::Plain,
    },
];

pub(super) const TS_ENUM_DECL: &[Field] = &[
    Field {
        key: "span",
        slot: Slot::One(Content::Span),
        role: Role::Plain,
    },
    Field {
        key: "id",
        slot: Slot::One(Content::Node(Class::Ident)),
        role: Role::Class,
    },
    Field {
        key: "members",
        slot: Slot::List(Content::Node(Class::TsEnumMember)),
        role: Role::Plain,
    },
];

pub(super) const TS_ENUM_MEMBER: &[Field] = &[
    Field {
        key: "span",
        slot: Slot::One(Content::Span),
        role: Role::Plain,
    },
    Field {
        key: "id",
        slot: Slot::One(Content::Node(Class::TsEnumMemberId)),
        role: Role::Plain,
    },
    Field {
        key: "init",
        slot: Slot::Optional(Content::Node(Class::Expr)),
        role: Role::Reference,
    },
];

pub(super) const TS_MODULE_DECL: &[Field] = &[
    Field {
        key: "span",
        slot: Slot::One(Content::Span),
        role: Role::Plain,
    },
    Field {
        key: "id",
        slot: Slot::One(Content::Node(Class::Ident)),
        role: Role::Class,
    },
    Field {
        key: "body",
        slot: Slot::List(Content::Node(Class::ModuleItem)),
        role: Role::Plain,
    },
];

pub(super) const TS_KEYWORD_TYPE: &[Field] = &[
    Field {
        key: "span",
        slot: Slot::One(Content::Span),
        role: Role::Plain,
    },
    Field {
        key: "kind",
        slot: Slot::One(Content::Text),
        role: Role::Plain,
    },
];

pub(super) const TS_TYPE_REF: &[Field] = &[
    Field {
        key: "span",
        slot: Slot::One(Content::Span),
        role: Role::Plain,
    },
    Field {
        key: "name",
        slot: Slot::One(Content::Node(Class::TsEntityName)),
        role: Role::TypeReference,
    },
    Field {
        key: "type_args",
        slot: Slot::List(Content::Node(Class::TsType)),
        role: Role::Plain,
    },
];

pub(super) const TS_ARRAY_TYPE: &[Field] = &[
    Field {
        key: "span",
        slot: Slot::One(Content::Span),
        role: Role::Plain,
    },
    Field {
        key: "elem",
        slot: Slot::One(Content::Node(Class::TsType)),
        role: Role::Plain,
    },
];

pub(super) const TS_UNION_TYPE: &[Field] = &[
    Field {
        key: "span",
        slot: Slot::One(Content::Span),
        role: Role::Plain,
    },
    Field {
        key: "types",
        slot: Slot::List(Content::Node(Class::TsType)),
        role: Role::Plain,
    },
];

pub(super) const TS_TYPE_LIT: &[Field] = &[
    Field {
        key: "span",
        slot: Slot::One(Content::Span),
        role: Role::Plain,
    },
    Field {
        key: "members",
        slot: Slot::List(Content::Node(Class::TsPropertySignature)),
        role: Role::Plain,
    },
];

pub(super) const TS_PROPERTY_SIGNATURE: &[Field] = &[
    Field {
        key: "span",
        slot: Slot::One(Content::Span),
        role: Role::Plain,
    },
    Field {
        key: "key",
        slot: Slot::One(Content::Node(Class::IdentName)),
        role: Role::Plain,
    },
    Field {
        key: "optional",
        slot: Slot::One(Content::Flag),
        role: Role::Plain,
    },
    Field {
        key: "type_ann",
        slot: Slot::One(Content::Node(Class::TsType)),
        role: Role::Plain,
    },
];

pub(super) const TS_QUALIFIED_NAME: &[Field] = &[
    Field {
        key: "span",
        slot: Slot::One(Content::Span),
        role: Role::Plain,
    },
    Field {
        key: "left",
        slot: Slot::One(Content::Node(Class::TsEntityName)),
        role: Role::TypeReference,
    },
    Field {
        key: "right",
        slot: Slot::One(Content::Node(Class::IdentName)),
        role: Role::Plain,
    },
];
