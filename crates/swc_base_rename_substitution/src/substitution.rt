//! The walk that gives the names of a tree anew.
ghost use Rattle.std.specs.Prelude.{◌≡◌, IfOk, IfSome, OnOk, true};
ghost use Rattle.swc_base_rename_substitution.specs.Names.{new_id};
ghost use Rattle.swc_base_rename_substitution.specs.Identifiers.{writes_out as is_writing_out, writes_name as is_writing_name};
ghost use Rattle.swc_base_rename_substitution.specs.Places.{has_source as has_source_in};
ghost use Rattle.swc_base_rename_substitution.specs.Substituted.{keeps_name as is_keeping, substituted};
ghost use Rattle.swc_base_rename_substitution.specs.Walk.{StaysAs, place_in, each_substituted, items_substituted};

use crate::classes::{identifier_at, kept_class};
use crate::exports::{any_exported, exports_of_all, with_all_exports};
use crate::identifiers::substitute_identifier;
use crate::names::Names;
use crate::place::{Below, Place};
use crate::written_out::rename_named;
use std::alloc::Global;
use swc_tree_items::Items;
use swc_tree_marks::NoMemory;
use swc_tree_node::fields::{class_decl, named_export};
use swc_tree_node::{Kind, Node};

// Whether the kind writes a changed name out.
fn writes_out(kind: Kind) -> bool
    ensures { result ≡ is_writing_out kind }
{
    matches!(
        kind,
        Kind::AssignPatProp | Kind::ImportNamedSpecifier | Kind::ExportNamedSpecifier
    )
}

// Whether a class declaration becomes `let`, where classes keep their names.
fn keeps_name(keeps_classes: bool, place: Place, kind: Kind) -> bool
    ensures { result ≡ is_keeping keeps_classes place kind }
{
    kind == Kind::ClassDecl && keeps_classes && place != Place::Exported
}

// Whether an export list of these fields has a source.
fn has_source(fields: &Items<Node>) -> bool
    ensures { result ≡ has_source_in fields.now }
{
    !matches!(fields.get(named_export::SRC), None | Some(Node::Absent))
}

// Whether a node of that kind with these fields has a name to write out.
fn writes_name(kind: Kind, fields: &Items<Node>) -> bool
    ensures { result ≡ is_writing_name kind fields.now }
{
    writes_out(kind) && matches!(fields.get(1), Some(Node::Identifier(_, _)))
}

/// The node with its names given anew.
#[cycle(substitute)]
#[tactic(auto, using(crate::proofs::Equations::substituted_leaves, crate::proofs::Equations::substituted_identifier, crate::proofs::Equations::substituted_list))]
pub fn substitute_node(
    alloc: Global,
    names: Names,
    keeps_classes: bool,
    place: Place,
    node: Node,
) -> Result<Node, NoMemory>
    ensures { IfOk result (λ answer. answer ≡ substituted (new_id names.entry) keeps_classes place node) }
{
    match node {
        Node::List(items) => {
            let items = substitute_items(alloc, names, keeps_classes, place, items)?;
            Ok(Node::List(items))
        }
        Node::Identifier(kind, ident) => { substitute_identifier(alloc, names, place, kind, ident) }
        Node::Tree(kind, fields) => {
            substitute_tree(alloc, names, keeps_classes, place, kind, fields)
        }
        Node::Absent => Ok(Node::Absent),
        Node::Flag(flag) => Ok(Node::Flag(flag)),
        Node::Word(word) => Ok(Node::Word(word)),
        Node::Text(text) => Ok(Node::Text(text)),
        Node::Span(span) => Ok(Node::Span(span)),
    }
}

// The items of a list at a place.
#[cycle(substitute)]
#[tactic(auto, using(crate::proofs::Lists::no_exports))]
fn substitute_items(
    alloc: Global,
    names: Names,
    keeps_classes: bool,
    place: Place,
    items: Items<Node>,
) -> Result<Items<Node>, NoMemory>
    ensures { IfOk result (λ answer. answer ≡ items_substituted (new_id names.entry) keeps_classes place items) }
{
    if !any_exported(items.as_slice()) {
        return substitute_each(alloc, names, keeps_classes, Below::Items(place), items);
    }
    let exports = exports_of_all(alloc, names, items.as_slice())?;
    let items = substitute_each(alloc, names, keeps_classes, Below::Items(place), items)?;
    with_all_exports(alloc, items, exports)
}

// The items of a list, or the fields of a node, each at its place.
#[cycle(substitute)]
fn substitute_each(
    alloc: Global,
    names: Names,
    keeps_classes: bool,
    below: Below,
    mut nodes: Items<Node>,
) -> Result<Items<Node>, NoMemory>
    ensures { IfOk result (λ answer. answer ≡ each_substituted (new_id names.entry) keeps_classes (place_in keeps_classes below) nodes) }
{
    substitute_all(alloc, names, keeps_classes, below, &mut nodes)?;
    Ok(nodes)
}

// The same in place. A node that stays what it is is not taken out of its list.
#[cycle(substitute)]
fn substitute_all(
    alloc: Global,
    names: Names,
    keeps_classes: bool,
    below: Below,
    nodes: &mut Items<Node>,
) -> Result<(), NoMemory>
    ensures { OnOk result (nodes.new ≡ each_substituted (new_id names.entry) keeps_classes (place_in keeps_classes below) nodes.old) }
{
    for i in 0..nodes.len() {
        if !nodes.as_slice()[i].may_hold_names() {
            continue;
        }
        let place = below.place(keeps_classes, i);
        match parts_below(keeps_classes, place, &nodes.as_slice()[i]) {
            Some(parts) => {
                let node = nodes.item_mut(i);
                substitute_parts(alloc, names, keeps_classes, place, parts, node)?;
            }
            None => {
                let node = nodes.replace(i, Node::Absent);
                let node = substitute_node(alloc, names, keeps_classes, place, node)?;
                nodes.set(i, node);
            }
        }
    }
    Ok(())
}

// What the places of a node's parts go by, where the node stays what it is but for them.
fn parts_below(keeps_classes: bool, place: Place, node: &Node) -> Option<Below>
    ensures { IfSome result (StaysAs keeps_classes place node.now) }
{
    match node {
        Node::List(items) if !any_exported(items.as_slice()) => Some(Below::Items(place)),
        Node::Tree(kind, fields)
            if !keeps_name(keeps_classes, place, *kind) && !writes_name(*kind, fields) => {
            Some(Below::Fields(place, has_source(fields), *kind))
        }
        _ => None,
    }
}

// The parts of a node that stays what it is but for them.
#[cycle(substitute)]
fn substitute_parts(
    alloc: Global,
    names: Names,
    keeps_classes: bool,
    place: Place,
    parts: Below,
    node: &mut Node,
) -> Result<(), NoMemory>
    requires { StaysAs keeps_classes place node.old parts }
    ensures { OnOk result (node.new ≡ substituted (new_id names.entry) keeps_classes place node.old) }
{
    let Some(children) = node.children_mut() else {
        return Ok(());
    };
    substitute_all(alloc, names, keeps_classes, parts, children)
}

// A node of that kind and with these fields.
#[cycle(substitute)]
fn substitute_tree(
    alloc: Global,
    names: Names,
    keeps_classes: bool,
    place: Place,
    kind: Kind,
    fields: Items<Node>,
) -> Result<Node, NoMemory>
    ensures { IfOk result (λ answer. answer ≡ substituted (new_id names.entry) keeps_classes place (Node.Tree kind fields)) }
{
    let below = Below::Fields(place, has_source(&fields), kind);
    if keeps_name(keeps_classes, place, kind) {
        let old = identifier_at(&fields, class_decl::IDENT)?;
        let fields = substitute_each(alloc, names, keeps_classes, below, fields)?;
        return kept_class(alloc, old, fields);
    }
    if writes_name(kind, &fields) {
        return substitute_named(alloc, names, keeps_classes, place, kind, fields);
    }
    let fields = substitute_each(alloc, names, keeps_classes, below, fields)?;
    Ok(Node::Tree(kind, fields))
}

// A node of a kind that writes a changed name out, with these fields.
#[cycle(substitute)]
fn substitute_named(
    alloc: Global,
    names: Names,
    keeps_classes: bool,
    place: Place,
    kind: Kind,
    fields: Items<Node>,
) -> Result<Node, NoMemory>
    requires { is_writing_name kind fields ≡ true }
    ensures { IfOk result (λ answer. answer ≡ substituted (new_id names.entry) keeps_classes place (Node.Tree kind fields)) }
{
    let sourced = has_source(&fields);
    let below = Below::Others(place, sourced, kind);
    let fields = substitute_each(alloc, names, keeps_classes, below, fields)?;
    let at = Below::Fields(place, sourced, kind).place(keeps_classes, 1);
    rename_named(alloc, names, at, kind, fields)
}
