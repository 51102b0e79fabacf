//! Fields: Names, literals and other parts that hold no subtree.
//!
//! Printed by tools/print_table.py from tools/tree.txt.
use crate::kind::{Class, WordClass};
use crate::slot::{Content, Field, Role, Slot};

pub(super) const IDENT_NAME: &[Field] = &[
    Field {
        key: "span",
        slot: Slot::One(Content::Span),
        role: Role::Plain,
    },
    Field {
        key: "sym",
        slot: Slot::One(Content::Text),
        role: Role::Plain,
    },
];

pub(super) const PRIVATE_NAME: &[Field] = &[
    Field {
        key: "span",
        slot: Slot::One(Content::Span),
        role: Role::Plain,
    },
    Field {
        key: "name",
        slot: Slot::One(Content::Text),
        role: Role::Plain,
    },
];

pub(super) const STR: &[Field] = &[
    Field {
        key: "span",
        slot: Slot::One(Content::Span),
        role: Role::Plain,
    },
    Field {
        key: "value",
        slot: Slot::One(Content::Text),
        role: Role::Plain,
    },
    Field {
        key: "raw",
        slot: Slot::Optional(Content::Text),
        role: Role::Plain,
    },
];

pub(super) const BOOL: &[Field] = &[
    Field {
        key: "span",
        slot: Slot::One(Content::Span),
        role: Role::Plain,
    },
    Field {
        key: "value",
        slot: Slot::One(Content::Flag),
        role: Role::Plain,
    },
];

pub(super) const NULL: &[Field] = &[Field {
    key: "span",
    slot: Slot::One(Content::Span),
    role: Role::Plain,
}];

pub(super) const NUMBER: &[Field] = &[
    Field {
        key: "span",
        slot: Slot::One(Content::Span),
        role: Role::Plain,
    },
    Field {
        key: "text",
        slot: Slot::One(Content::Text),
        role: Role::Plain,
    },
];

pub(super) const BIG_INT: &[Field] = &[
    Field {
        key: "span",
        slot: Slot::One(Content::Span),
        role: Role::Plain,
    },
    Field {
        key: "text",
        slot: Slot::One(Content::Text),
        role: Role::Plain,
    },
];

pub(super) const REGEX: &[Field] = &[
    Field {
        key: "span",
        slot: Slot::One(Content::Span),
        role: Role::Plain,
    },
    Field {
        key: "exp",
        slot: Slot::One(Content::Text),
        role: Role::Plain,
    },
    Field {
        key: "flags",
        slot: Slot::One(Content::Text),
        role: Role::Plain,
    },
];

pub(super) const TPL_ELEMENT: &[Field] = &[
    Field {
        key: "span",
        slot: Slot::One(Content::Span),
        role: Role::Plain,
    },
    Field {
        key: "tail",
        slot: Slot::One(Content::Flag),
        role: Role::Plain,
    },
    Field {
        key: "cooked",
        slot: Slot::Optional(Content::Text),
        role: Role::Plain,
    },
    Field {
        key: "raw",
        slot: Slot::One(Content::Text),
        role: Role::Plain,
    },
];

pub(super) const THIS_EXPR: &[Field] = &[Field {
    key: "span",
    slot: Slot::One(Content::Span),
    role: Role::Plain,
}];

pub(super) const SUPER: &[Field] = &[Field {
    key: "span",
    slot: Slot::One(Content::Span),
    role: Role::Plain,
}];

pub(super) const IMPORT: &[Field] = &[Field {
    key: "span",
    slot: Slot::One(Content::Span),
    role: Role::Plain,
}];

pub(super) const META_PROP_EXPR: &[Field] = &[
    Field {
        key: "span",
        slot: Slot::One(Content::Span),
        role: Role::Plain,
    },
    Field {
        key: "kind",
        slot: Slot::One(Content::Word(WordClass::MetaPropKind)),
        role: Role::Plain,
    },
];

pub(super) const EMPTY_STMT: &[Field] = &[Field {
    key: "span",
    slot: Slot::One(Content::Span),
    role: Role::Plain,
}];

pub(super) const DEBUGGER_STMT: &[Field] = &[Field {
    key: "span",
    slot: Slot::One(Content::Span),
    role: Role::Plain,
}];

pub(super) const BREAK_STMT: &[Field] = &[
    Field {
        key: "span",
        slot: Slot::One(Content::Span),
        role: Role::Plain,
    },
    Field {
        key: "label",
        slot: Slot::Optional(Content::Node(Class::Ident)),
        role: Role::Label,
    },
];

pub(super) const CONTINUE_STMT: &[Field] = &[
    Field {
        key: "span",
        slot: Slot::One(Content::Span),
        role: Role::Plain,
    },
    Field {
        key: "label",
        slot: Slot::Optional(Content::Node(Class::Ident)),
        role: Role::Label,
    },
];
