//! Fields: Expressions.
//!
//! Printed by tools/print_table.py from tools/tree.txt.
use crate::kind::{Class, WordClass};
use crate::slot::{Content, Field, Role, Slot};

pub(super) const ARRAY_LIT: &[Field] = &[
    Field {
        key: "span",
        slot: Slot::One(Content::Span),
        role: Role::Plain,
    },
    Field {
        key: "elems",
        slot: Slot::Holes(Content::Node(Class::ExprOrSpread)),
        role: Role::Plain,
    },
];

pub(super) const EXPR_OR_SPREAD: &[Field] = &[
    Field {
        key: "spread",
        slot: Slot::Optional(Content::Span),
        role: Role::Plain,
    },
    Field {
        key: "expr",
        slot: Slot::One(Content::Node(Class::Expr)),
        role: Role::Reference,
    },
];

pub(super) const OBJECT_LIT: &[Field] = &[
    Field {
        key: "span",
        slot: Slot::One(Content::Span),
        role: Role::Plain,
    },
    Field {
        key: "props",
        slot: Slot::List(Content::Node(Class::PropOrSpread)),
        role: Role::Reference,
    },
];

pub(super) const SPREAD_ELEMENT: &[Field] = &[
    Field {
        key: "dot3_token",
        slot: Slot::One(Content::Span),
        role: Role::Plain,
    },
    Field {
        key: "expr",
        slot: Slot::One(Content::Node(Class::Expr)),
        role: Role::Reference,
    },
];

pub(super) const KEY_VALUE_PROP: &[Field] = &[
    Field {
        key: "key",
        slot: Slot::One(Content::Node(Class::PropName)),
        role: Role::Plain,
    },
    Field {
        key: "value",
        slot: Slot::One(Content::Node(Class::Expr)),
        role: Role::Reference,
    },
];

pub(super) const UNARY_EXPR: &[Field] = &[
    Field {
        key: "span",
        slot: Slot::One(Content::Span),
        role: Role::Plain,
    },
    Field {
        key: "op",
        slot: Slot::One(Content::Word(WordClass::UnaryOp)),
        role: Role::Plain,
    },
    Field {
        key: "arg",
        slot: Slot::One(Content::Node(Class::Expr)),
        role: Role::Reference,
    },
];

pub(super) const UPDATE_EXPR: &[Field] = &[
    Field {
        key: "span",
        slot: Slot::One(Content::Span),
        role: Role::Plain,
    },
    Field {
        key: "op",
        slot: Slot::One(Content::Word(WordClass::UpdateOp)),
        role: Role::Plain,
    },
    Field {
        key: "prefix",
        slot: Slot::One(Content::Flag),
        role: Role::Plain,
    },
    Field {
        key: "arg",
        slot: Slot::One(Content::Node(Class::Expr)),
        role: Role::Reference,
    },
];

pub(super) const BIN_EXPR: &[Field] = &[
    Field {
        key: "span",
        slot: Slot::One(Content::Span),
        role: Role::Plain,
    },
    Field {
        key: "op",
        slot: Slot::One(Content::Word(WordClass::BinaryOp)),
        role: Role::Plain,
    },
    Field {
        key: "left",
        slot: Slot::One(Content::Node(Class::Expr)),
        role: Role::Reference,
    },
    Field {
        key: "right",
        slot: Slot::One(Content::Node(Class::Expr)),
        role: Role::Reference,
    },
];

pub(super) const ASSIGN_EXPR: &[Field] = &[
    Field {
        key: "span",
        slot: Slot::One(Content::Span),
        role: Role::Plain,
    },
    Field {
        key: "op",
        slot: Slot::One(Content::Word(WordClass::AssignOp)),
        role: Role::Plain,
    },
    Field {
        key: "left",
        slot: Slot::One(Content::Node(Class::AssignTarget)),
        role: Role::Reference,
    },
    Field {
        key: "right",
        slot: Slot::One(Content::Node(Class::Expr)),
        role: Role::Reference,
    },
];

pub(super) const MEMBER_EXPR: &[Field] = &[
    Field {
        key: "span",
        slot: Slot::One(Content::Span),
        role: Role::Plain,
    },
    Field {
        key: "obj",
        slot: Slot::One(Content::Node(Class::Expr)),
        role: Role::Reference,
    },
    Field {
        key: "prop",
        slot: Slot::One(Content::Node(Class::MemberProp)),
        role: Role::Plain,
    },
];

pub(super) const SUPER_PROP_EXPR: &[Field] = &[
    Field {
        key: "span",
        slot: Slot::One(Content::Span),
        role: Role::Plain,
    },
    Field {
        key: "obj",
        slot: Slot::One(Content::Node(Class::Super)),
        role: Role::Plain,
    },
    Field {
        key: "prop",
        slot: Slot::One(Content::Node(Class::SuperProp)),
        role: Role::Plain,
    },
];

pub(super) const COND_EXPR: &[Field] = &[
    Field {
        key: "span",
        slot: Slot::One(Content::Span),
        role: Role::Plain,
    },
    Field {
        key: "test",
        slot: Slot::One(Content::Node(Class::Expr)),
        role: Role::Reference,
    },
    Field {
        key: "cons",
        slot: Slot::One(Content::Node(Class::Expr)),
        role: Role::Reference,
    },
    Field {
        key: "alt",
        slot: Slot::One(Content::Node(Class::Expr)),
        role: Role::Reference,
    },
];

pub(super) const CALL_EXPR: &[Field] = &[
    Field {
        key: "span",
        slot: Slot::One(Content::Span),
        role: Role::Plain,
    },
    Field {
        key: "callee",
        slot: Slot::One(Content::Node(Class::Callee)),
        role: Role::Reference,
    },
    Field {
        key: "args",
        slot: Slot::List(Content::Node(Class::ExprOrSpread)),
        role: Role::Plain,
    },
];

pub(super) const NEW_EXPR: &[Field] = &[
    Field {
        key: "span",
        slot: Slot::One(Content::Span),
        role: Role::Plain,
    },
    Field {
        key: "callee",
        slot: Slot::One(Content::Node(Class::Expr)),
        role: Role::Reference,
    },
    Field {
        key: "args",
        slot: Slot::OptionalList(Content::Node(Class::ExprOrSpread)),
        role: Role::Plain,
    },
];

pub(super) const SEQ_EXPR: &[Field] = &[
    Field {
        key: "span",
        slot: Slot::One(Content::Span),
        role: Role::Plain,
    },
    Field {
        key: "exprs",
        slot: Slot::List(Content::Node(Class::Expr)),
        role: Role::Reference,
    },
];

pub(super) const PAREN_EXPR: &[Field] = &[
    Field {
        key: "span",
        slot: Slot::One(Content::Span),
        role: Role::Plain,
    },
    Field {
        key: "expr",
        slot: Slot::One(Content::Node(Class::Expr)),
        role: Role::Reference,
    },
];

pub(super) const AWAIT_EXPR: &[Field] = &[
    Field {
        key: "span",
        slot: Slot::One(Content::Span),
        role: Role::Plain,
    },
    Field {
        key: "arg",
        slot: Slot::One(Content::Node(Class::Expr)),
        role: Role::Reference,
    },
];

pub(super) const YIELD_EXPR: &[Field] = &[
    Field {
        key: "span",
        slot: Slot::One(Content::Span),
        role: Role::Plain,
    },
    Field {
        key: "arg",
        slot: Slot::Optional(Content::Node(Class::Expr)),
        role: Role::Reference,
    },
    Field {
        key: "delegate",
        slot: Slot::One(Content::Flag),
        role: Role::Plain,
    },
];

pub(super) const TPL: &[Field] = &[
    Field {
        key: "span",
        slot: Slot::One(Content::Span),
        role: Role::Plain,
    },
    Field {
        key: "exprs",
        slot: Slot::List(Content::Node(Class::Expr)),
        role: Role::Reference,
    },
    Field {
        key: "quasis",
        slot: Slot::List(Content::Node(Class::TplElement)),
        role: Role::Plain,
    },
];

pub(super) const TAGGED_TPL: &[Field] = &[
    Field {
        key: "span",
        slot: Slot::One(Content::Span),
        role: Role::Plain,
    },
    Field {
        key: "tag",
        slot: Slot::One(Content::Node(Class::Expr)),
        role: Role::Reference,
    },
    Field {
        key: "tpl",
        slot: Slot::One(Content::Node(Class::Tpl)),
        role: Role::Plain,
    },
];

pub(super) const OPT_CHAIN_EXPR: &[Field] = &[
    Field {
        key: "span",
        slot: Slot::One(Content::Span),
        role: Role::Plain,
    },
    Field {
        key: "optional",
        slot: Slot::One(Content::Flag),
        role: Role::Plain,
    },
    Field {
        key: "base",
        slot: Slot::One(Content::Node(Class::OptChainBase)),
        role: Role::Plain,
    },
];

pub(super) const OPT_CALL: &[Field] = &[
    Field {
        key: "span",
        slot: Slot::One(Content::Span),
        role: Role::Plain,
    },
    Field {
        key: "callee",
        slot: Slot::One(Content::Node(Class::Expr)),
        role: Role::Reference,
    },
    Field {
        key: "args",
        slot: Slot::List(Content::Node(Class::ExprOrSpread)),
        role: Role::Plain,
    },
];
