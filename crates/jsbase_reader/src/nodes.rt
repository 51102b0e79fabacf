//! Reading nodes.
ghost use Rattle.std.specs.Prelude.{◌≡◌, codes, option_map, option_and_then, IfOk};
ghost use Rattle.json.specs.Find.{get_member, as_str};
ghost use Rattle.json.specs.Value.{value_view, items_view};
ghost use Rattle.jsbase_form.specs.Reads.{Read, at, key};
ghost use Rattle.jsbase_form.specs.Steps.{part_of};
ghost use Rattle.jsbase_form.specs.Leaves.{span_at, context_at, text_at};
ghost use Rattle.jsbase_form.specs.Trees.{seen, items_seen, members_seen, fields_at, node_at, ident_at, kind_at, leaf_at, single_as, null_as, listed, named, value_of};
ghost use Rattle.jsbase_form.specs.Known.{MarksKnown};
ghost use Rattle.swc_tree_node.specs.declared.node.Node.{Node};
ghost use Rattle.swc_tree_node.specs.Fits.{Fits};
ghost use Rattle.swc_tree_node.specs.Table.{fields_of, kinds_of};
ghost use Rattle.jsbase_reader.specs.Answers.{Gives, GivesMore};
ghost use Rattle.jsbase_reader.specs.Parts.{class_in, identifier_of, item_slot, members_in, tree_of};

use crate::error::{ReadError, fault, under};
use crate::leaves::{read_context, read_flag, read_span, read_text, read_word};
use jsbase_form::Step;
use json::Value;
use std::alloc::Global;
use swc_tree_items::{Boxed, Items, Text};
use swc_tree_marks::{Globals, Ident, Span, SyntaxContext};
use swc_tree_node::{
    Class, Content, Kind, Node, Slot, fields_of, is_identifier, kinds_of, name_of,
};

fn read_leaf(alloc: Global, content: Content, value: &Value<'_>) -> Result<Node, ReadError>
    ensures { Gives result (leaf_at content (value_view value.now)) }
{
    match content {
        Content::Span => Ok(Node::Span(read_span(alloc, value)?)),
        Content::Text => Ok(Node::Text(read_text(alloc, value)?)),
        Content::Flag => Ok(Node::Flag(read_flag(alloc, value)?)),
        Content::Word(words) => Ok(Node::Word(read_word(alloc, words, value)?)),
        Content::Node(_) => fault(alloc),
    }
}

fn read_single(alloc: Global, slot: Slot, value: &Value<'_>) -> Result<Node, ReadError>
    ensures { Gives result (single_as (value_view value.now) slot) }
{
    match slot {
        Slot::One(content) | Slot::Optional(content) => read_leaf(alloc, content, value),
        Slot::List(_) | Slot::Holes(_) | Slot::OptionalList(_) | Slot::Pair | Slot::Pairs => {
            fault(alloc)
        }
    }
}

fn read_null(alloc: Global, slot: Slot) -> Result<Node, ReadError>
    ensures { Gives result (null_as slot) }
{
    match slot {
        Slot::Optional(_) | Slot::OptionalList(_) | Slot::Pairs => Ok(Node::Absent),
        Slot::One(_) | Slot::List(_) | Slot::Holes(_) | Slot::Pair => fault(alloc),
    }
}

// The value of a key of an object, the last where the key comes twice.
pub(crate) fn member<'v, 'a>(object: &'v Value<'a>, key: &str) -> Option<&'v Value<'a>>
    ensures { option_map (λ v. value_view v.now) result
        ≡ get_member key.now (members_in (value_view object.now)) }
{
    object.get(key)
}

// The text of a key, if it has one.
fn text_of<'v, 'a>(object: &'v Value<'a>, key: &str) -> Option<&'a str>
    ensures { option_map (λ s. s.now) result
        ≡ option_and_then as_str (get_member key.now (members_in (value_view object.now))) }
{
    member(object, key)?.as_str()
}

fn named(kinds: &[Kind], name: &str) -> Option<Kind>
    ensures { result ≡ named name.now kinds.now }
{
    kinds.iter().copied().find(|kind| name_of(*kind) == name)
}

fn kind_named(class: Class, name: Option<&str>) -> Option<Kind>
    ensures { result ≡ option_and_then (λ s. named s (kinds_of class)) (option_map (λ s. s.now) name.entry) }
{
    named(kinds_of(class), name?)
}

#[tactic(auto, unfolding(jsbase_form::specs::Trees::kind_at))]
pub(crate) fn read_kind(alloc: Global, class: Class, object: &Value<'_>) -> Result<Kind, ReadError>
    ensures { Gives result (kind_at class (members_in (value_view object.now))) }
{
    match kind_named(class, text_of(object, "type")) {
        Some(kind) => Ok(kind),
        None => fault(alloc),
    }
}

#[tactic(auto, unfolding(jsbase_form::specs::Leaves::span_at))]
fn span_in(alloc: Global, object: &Value<'_>) -> Result<Span, ReadError>
    ensures { Gives result (at (key (codes "span")) (span_at (value_of (codes "span") (members_in (value_view object.now))))) }
{
    match member(object, "span") {
        Some(value) => under(Step::Key("span"), read_span(alloc, value)),
        None => under(Step::Key("span"), fault(alloc)),
    }
}

#[tactic(auto, unfolding(jsbase_form::specs::Leaves::context_at))]
fn context_in(
    alloc: Global,
    globals: &Globals,
    object: &Value<'_>,
) -> Result<SyntaxContext, ReadError>
    ensures { Gives result (at (key (codes "ctxt")) (context_at globals.now (value_of (codes "ctxt") (members_in (value_view object.now))))) }
{
    match member(object, "ctxt") {
        Some(value) => under(Step::Key("ctxt"), read_context(alloc, globals, value)),
        None => under(Step::Key("ctxt"), fault(alloc)),
    }
}

#[tactic(auto, unfolding(jsbase_form::specs::Leaves::text_at))]
fn sym_in(alloc: Global, object: &Value<'_>) -> Result<Text, ReadError>
    ensures { Gives result (at (key (codes "sym")) (text_at (value_of (codes "sym") (members_in (value_view object.now))))) }
{
    match member(object, "sym") {
        Some(value) => under(Step::Key("sym"), read_text(alloc, value)),
        None => under(Step::Key("sym"), fault(alloc)),
    }
}

#[tactic(auto, unfolding(jsbase_form::specs::Trees::ident_at))]
fn read_ident(alloc: Global, globals: &Globals, object: &Value<'_>) -> Result<Ident, ReadError>
    ensures { Gives result (ident_at globals.now (members_in (value_view object.now))) }
{
    let span = span_in(alloc, object)?;
    let ctxt = context_in(alloc, globals, object)?;
    let sym = sym_in(alloc, object)?;
    Ok(Ident { span, ctxt, sym })
}

fn read_identifier(
    alloc: Global,
    globals: &Globals,
    object: &Value<'_>,
    kind: Kind,
) -> Result<Node, ReadError>
    ensures { Gives result (identifier_of kind (ident_at globals.now (members_in (value_view object.now)))) }
{
    let ident = read_ident(alloc, globals, object)?;
    Ok(Node::Identifier(kind, Boxed::new(alloc, ident)?))
}

// Puts what was read of a part behind the nodes that were read before it.
fn push_read(
    nodes: &mut Items<Node>,
    step: Step,
    read: Result<Node, ReadError>,
) -> Result<(), ReadError>
    ensures { (r : Read Node) → Gives read r → GivesMore result nodes.old nodes.new (at (part_of step) r) }
{
    let node = under(step, read)?;
    nodes.push(node)?;
    Ok(())
}

// The place of each of so many items of a list, if the place takes a list of so many.
fn item_slot(slot: Slot, count: usize) -> Option<Slot>
    ensures { result ≡ item_slot slot count }
{
    match slot {
        Slot::List(content) | Slot::OptionalList(content) => Some(Slot::One(content)),
        Slot::Holes(content) => Some(Slot::Optional(content)),
        Slot::Pairs => Some(Slot::Pair),
        Slot::Pair if count == 2 => Some(Slot::One(Content::Text)),
        Slot::Pair | Slot::One(_) | Slot::Optional(_) => None,
    }
}

// The class of the node that a place takes, if it takes one.
fn class_of(slot: Slot) -> Option<Class>
    ensures { result ≡ class_in slot }
{
    match slot {
        Slot::One(Content::Node(class)) | Slot::Optional(Content::Node(class)) => Some(class),
        _ => None,
    }
}

/// The tree that a JSON value is in a place.
///
/// The value is only read; texts are copied out of it. The time is in step with the size of the value, but for looking up
/// keys, which costs how many an object has, and marks, which costs the logarithm of how many there are.
///
/// # Errors
///
/// `Fault` with the path to the first fault, in the order in which fields are read; `NoMemory` where
/// memory is refused.
pub fn read(
    alloc: Global,
    globals: &Globals,
    value: &Value<'_>,
    slot: Slot,
) -> Result<Node, ReadError>
    ensures tree { Gives result (seen globals.now (value_view value.now) slot) }
    ensures fits { IfOk result (λ tree. Fits tree slot) }
    ensures known { IfOk result (λ tree. MarksKnown globals.now tree) }
{
    let tree = read_value(alloc, globals, value, slot)?;
    Ok(tree)
}

#[cycle(read)]
#[tactic(auto, using(crate::proofs::Items::node_there, crate::proofs::Items::no_node_there))]
fn read_value(
    alloc: Global,
    globals: &Globals,
    value: &Value<'_>,
    slot: Slot,
) -> Result<Node, ReadError>
    ensures { Gives result (seen globals.now (value_view value.now) slot) }
{
    match value {
        Value::Null => read_null(alloc, slot),
        Value::Bool(_) | Value::Number(_) | Value::String(_) => read_single(alloc, slot, value),
        Value::Array(values) => match item_slot(slot, values.len()) {
            Some(item) => read_list(alloc, globals, values.as_slice(), item),
            None => read_single(alloc, slot, value),
        },
        Value::Object(_) => match class_of(slot) {
            Some(class) => read_node(alloc, globals, value, class),
            None => fault(alloc),
        },
    }
}

#[cycle(read)]
fn read_list(
    alloc: Global,
    globals: &Globals,
    values: &[Value<'_>],
    slot: Slot,
) -> Result<Node, ReadError>
    ensures { Gives result (listed (items_seen globals.now 0 (items_view values.now) slot)) }
{
    let mut nodes = Items::with_capacity(alloc, values.len())?;
    for (i, value) in values.iter().enumerate() {
        let read = read_value(alloc, globals, value, slot);
        push_read(&mut nodes, Step::Index(i), read)?;
    }
    Ok(Node::List(nodes))
}

#[cycle(read)]
#[tactic(auto, unfolding(jsbase_form::specs::Trees::body_at))]
fn read_node(
    alloc: Global,
    globals: &Globals,
    object: &Value<'_>,
    class: Class,
) -> Result<Node, ReadError>
    ensures { Gives result (node_at globals.now (members_in (value_view object.now))
        (members_seen globals.now (members_in (value_view object.now))) class) }
{
    let kind = read_kind(alloc, class, object)?;
    if is_identifier(kind) {
        read_identifier(alloc, globals, object, kind)
    } else {
        read_tree(alloc, globals, object, kind)
    }
}

// What the value of a key is in a place.
#[cycle(read)]
pub(crate) fn read_member(
    alloc: Global,
    globals: &Globals,
    object: &Value<'_>,
    key: &str,
    slot: Slot,
) -> Result<Node, ReadError>
    ensures { Gives result (members_seen globals.now (members_in (value_view object.now)) key.now slot) }
{
    match member(object, key) {
        Some(value) => read_value(alloc, globals, value, slot),
        None => read_null(alloc, slot),
    }
}

#[cycle(read)]
fn read_tree(
    alloc: Global,
    globals: &Globals,
    object: &Value<'_>,
    kind: Kind,
) -> Result<Node, ReadError>
    ensures { Gives result (tree_of kind (fields_at (members_seen globals.now (members_in (value_view object.now))) (fields_of kind))) }
{
    let fields = fields_of(kind);
    let mut nodes = Items::with_capacity(alloc, fields.len())?;
    for field in fields {
        let read = read_member(alloc, globals, object, field.key, field.slot);
        push_read(&mut nodes, Step::Key(field.key), read)?;
    }
    Ok(Node::Tree(kind, nodes))
}
