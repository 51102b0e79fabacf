//! Identifiers that name helpers, written as members.
ghost use Rattle.std.specs.Prelude.{◌≡◌, IfOk, Some, slice_get};
ghost use Rattle.swc_tree_node.specs.declared.kind.Kind.TheVariants as kind;
ghost use Rattle.swc_tree_scoping.specs.Shorthands.{computed_key as is_computed_key, key_of as is_key_of, shorthand_key as is_shorthand_key};
ghost use Rattle.swc_base_tables_injection.specs.Members.{field_seat as is_field_seat, has_only, helper_as as is_helper_as, in_class, in_content as is_in_content, in_slot as is_in_slot, member_of as is_member_of, membered, property_of as is_property_of};
ghost use Rattle.swc_base_tables_injection.specs.Walk.{each_membered, seats};

use crate::brought::tree;
use std::alloc::Global;
use swc_tree_items::{Boxed, Items, Text};
use swc_tree_marks::{Ident, Mark, NoMemory, SyntaxContext};
use swc_tree_node::{Class, Content, Kind, Node, Slot, fields_of};

/// What an identifier is in a place.
#[derive(Clone, Copy, PartialEq, Eq)]
pub enum Seat {
    /// An expression.
    Expression,
    /// A shorthand property of an object literal.
    Property,
    /// Neither.
    Other,
}

// What the children are that are walked.
#[derive(Clone, Copy)]
pub enum Below {
    Items(Seat),
    Fields(Kind),
}

fn class_seat(class: Class) -> Seat
    ensures { result ≡ in_class class }
{
    match class {
        Class::Expr
        | Class::Pat
        | Class::Callee
        | Class::BlockStmtOrExpr
        | Class::VarDeclOrExpr
        | Class::ForHead => Seat::Expression,
        Class::PropOrSpread | Class::Prop => Seat::Property,
        _ => Seat::Other,
    }
}

fn content_seat(content: Content) -> Seat
    ensures { result ≡ is_in_content content }
{
    match content {
        Content::Node(class) => class_seat(class),
        _ => Seat::Other,
    }
}

fn slot_seat(slot: Slot) -> Seat
    ensures { result ≡ is_in_slot slot }
{
    match slot {
        Slot::One(content)
        | Slot::Optional(content)
        | Slot::List(content)
        | Slot::Holes(content)
        | Slot::OptionalList(content) => content_seat(content),
        Slot::Pair | Slot::Pairs => Seat::Other,
    }
}

// The seat of a field.
fn field_seat(kind: Kind, index: usize) -> Seat
    ensures { result ≡ is_field_seat kind index }
{
    match fields_of(kind).get(index) {
        Some(field) => slot_seat(field.slot),
        None => Seat::Other,
    }
}

// The seat of a child.
fn seat_below(below: Below, index: usize) -> Seat
    ensures { result ≡ seats below index }
{
    match below {
        Below::Items(seat) => seat,
        Below::Fields(kind) => field_seat(kind, index),
    }
}

// Whether a context is that of the one mark.
fn is_only(context: &SyntaxContext, mark: Mark) -> bool
    ensures { result ≡ has_only mark context.now }
{
    match context.marks() {
        [only] => *only == mark,
        _ => false,
    }
}

// `_throw._`
fn member_of(alloc: Global, ident: Boxed<Ident>) -> Result<Node, NoMemory>
    ensures { IfOk result (λ node. node ≡ is_member_of ident) }
{
    let span = Node::Span(ident.get().span);
    let name = Node::Text(Text::new(alloc, "_")?);
    let member = tree(alloc, Kind::IdentName, [Node::Span(ident.get().span), name])?;
    let object = Node::Identifier(Kind::Ident, ident);
    tree(alloc, Kind::MemberExpr, [span, object, member])
}

// The key of the property that a shorthand becomes.
fn key_of(alloc: Global, ident: &Ident) -> Result<Node, NoMemory>
    ensures { IfOk result (λ node. node ≡ is_shorthand_key ident.now) }
{
    let span = Node::Span(ident.span);
    let text = ident.sym.clone()?;
    if text.as_str() != "__proto__" {
        return tree(alloc, Kind::IdentName, [span, Node::Text(text)]);
    }
    let inner = [Node::Span(ident.span), Node::Text(text), Node::Absent];
    let string = tree(alloc, Kind::Str, inner)?;
    tree(alloc, Kind::ComputedPropName, [span, string])
}

// `_throw: _throw._`
fn property_of(alloc: Global, ident: Boxed<Ident>) -> Result<Node, NoMemory>
    ensures { IfOk result (λ node. node ≡ is_property_of ident) }
{
    let key = key_of(alloc, ident.get())?;
    let value = member_of(alloc, ident)?;
    tree(alloc, Kind::KeyValueProp, [key, value])
}

// What stands in the place of an identifier that is no binding by its kind.
fn ident_as(alloc: Global, helper: Mark, seat: Seat, ident: Boxed<Ident>) -> Result<Node, NoMemory>
    ensures { IfOk result (λ node. node ≡ is_helper_as (has_only helper ident.ctxt) seat kind.Ident ident) }
{
    if !is_only(&ident.get().ctxt, helper) {
        return Ok(Node::Identifier(Kind::Ident, ident));
    }
    match seat {
        Seat::Expression => member_of(alloc, ident),
        Seat::Property => property_of(alloc, ident),
        Seat::Other => Ok(Node::Identifier(Kind::Ident, ident)),
    }
}

// What stands in the place of an identifier.
#[tactic(auto, using(crate::proofs::Equations::other_kind))]
fn helper_as(
    alloc: Global,
    helper: Mark,
    seat: Seat,
    kind: Kind,
    ident: Boxed<Ident>,
) -> Result<Node, NoMemory>
    ensures { IfOk result (λ node. node ≡ is_helper_as (has_only helper ident.ctxt) seat kind ident) }
{
    match kind {
        Kind::Ident => ident_as(alloc, helper, seat, ident),
        kind => Ok(Node::Identifier(kind, ident)),
    }
}

/// The node in a seat, with members for the identifiers that name helpers.
#[cycle(walk)]
#[tactic(auto, using(crate::proofs::Equations::membered_leaves, crate::proofs::Equations::membered_identifier, crate::proofs::Equations::membered_list, crate::proofs::Equations::membered_tree))]
pub fn write_members(alloc: Global, helper: Mark, seat: Seat, node: Node) -> Result<Node, NoMemory>
    ensures { IfOk result (λ answer. answer ≡ membered helper seat node) }
{
    match node {
        Node::List(items) => {
            let items = write_each(alloc, helper, Below::Items(seat), items)?;
            Ok(Node::List(items))
        }
        Node::Identifier(kind, ident) => helper_as(alloc, helper, seat, kind, ident),
        Node::Tree(kind, fields) => {
            let fields = write_each(alloc, helper, Below::Fields(kind), fields)?;
            Ok(Node::Tree(kind, fields))
        }
        Node::Absent => Ok(Node::Absent),
        Node::Flag(flag) => Ok(Node::Flag(flag)),
        Node::Word(word) => Ok(Node::Word(word)),
        Node::Text(text) => Ok(Node::Text(text)),
        Node::Span(span) => Ok(Node::Span(span)),
    }
}

#[cycle(walk)]
fn write_each(
    alloc: Global,
    helper: Mark,
    below: Below,
    mut nodes: Items<Node>,
) -> Result<Items<Node>, NoMemory>
    ensures { IfOk result (λ answer. answer ≡ each_membered helper (seats below) nodes) }
{
    for i in 0..nodes.len() {
        let node = nodes.replace(i, Node::Absent);
        let node = write_members(alloc, helper, seat_below(below, i), node)?;
        nodes.set(i, node);
    }
    Ok(nodes)
}
