//! Fields: Patterns.
//!
//! Printed by tools/print_table.py from tools/tree.txt.
use crate::kind::Class;
use crate::slot::{Content, Field, Role, Slot};

pub(super) const ARRAY_PAT: &[Field] = &[
    Field {
        key: "span",
        slot: Slot::One(Content::Span),
        role: Role::Plain,
    },
    Field {
        key: "elems",
        slot: Slot::Holes(Content::Node(Class::Pat)),
        role: Role::Inherited,
    },
];

pub(super) const REST_PAT: &[Field] = &[
    Field {
        key: "span",
        slot: Slot::One(Content::Span),
        role: Role::Plain,
    },
    Field {
        key: "arg",
        slot: Slot::One(Content::Node(Class::Pat)),
        role: Role::Inherited,
    },
];

pub(super) const OBJECT_PAT: &[Field] = &[
    Field {
        key: "span",
        slot: Slot::One(Content::Span),
        role: Role::Plain,
    },
    Field {
        key: "props",
        slot: Slot::List(Content::Node(Class::ObjectPatProp)),
        role: Role::Inherited,
    },
];

pub(super) const ASSIGN_PAT: &[Field] = &[
    Field {
        key: "span",
        slot: Slot::One(Content::Span),
        role: Role::Plain,
    },
    Field {
        key: "left",
        slot: Slot::One(Content::Node(Class::Pat)),
        role: Role::Inherited,
    },
    Field {
        key: "right",
        slot: Slot::One(Content::Node(Class::Expr)),
        role: Role::Reference,
    },
];

pub(super) const KEY_VALUE_PAT_PROP: &[Field] = &[
    Field {
        key: "key",
        slot: Slot::One(Content::Node(Class::PropName)),
        role: Role::Plain,
    },
    Field {
        key: "value",
        slot: Slot::One(Content::Node(Class::Pat)),
        role: Role::Inherited,
    },
];

pub(super) const ASSIGN_PAT_PROP: &[Field] = &[
    Field {
        key: "span",
        slot: Slot::One(Content::Span),
        role: Role::Plain,
    },
    Field {
        key: "key",
        slot: Slot::One(Content::Node(Class::BindingIdent)),
        role: Role::Inherited,
    },
    Field {
        key: "value",
        slot: Slot::Optional(Content::Node(Class::Expr)),
        role: Role::Reference,
    },
];
