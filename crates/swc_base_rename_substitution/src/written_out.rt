//! Nodes that write a changed name out.
ghost use Rattle.std.specs.Prelude.{◌≡◌, ◌<◌, IfOk, length};
ghost use Rattle.swc_base_rename_substitution.specs.Identifiers.{or_kept as is_or_kept, with_default as is_with_default, with_other, written_out as is_written_out, written_out_if as is_written_out_if};
ghost use Rattle.swc_base_rename_substitution.specs.Names.{new_id};
ghost use Rattle.swc_tree_node.specs.declared.kind.Kind.TheVariants as kind;
ghost use Rattle.swc_base_rename_substitution.specs.Walk.{IsRenamed};

use crate::identifiers::{keep_name, key_of, rename, tree};
use crate::names::Names;
use crate::place::Place;
use std::alloc::Global;
use swc_tree_items::{Boxed, Items};
use swc_tree_marks::{Ident, NoMemory};
use swc_tree_node::fields::assign_pat_prop;
use swc_tree_node::{Kind, Node};

// The other name of a specifier, or the name that is kept where there is none.
fn or_kept(alloc: Global, old: Ident, other: Node) -> Result<Node, NoMemory>
    ensures { IfOk result (λ node. node ≡ is_or_kept old other) }
{
    match other {
        Node::Absent => {
            let old = Boxed::new(alloc, old)?;
            Ok(Node::Identifier(Kind::Ident, keep_name(alloc, old)))
        }
        other => Ok(other),
    }
}

// A target with its default value, where there is one.
fn with_default(alloc: Global, old: &Ident, target: Node, value: Node) -> Result<Node, NoMemory>
    ensures { IfOk result (λ node. node ≡ is_with_default old.now target value) }
{
    match value {
        Node::Absent => Ok(target),
        value => {
            let span = Node::Span(old.span);
            tree(alloc, Kind::AssignPat, [span, target, value])
        }
    }
}

// The property of a pattern, whose target was `old` and changed.
fn pattern_property(alloc: Global, old: Ident, mut fields: Items<Node>) -> Result<Node, NoMemory>
    requires { length fields ≡ 3 }
    ensures { IfOk result (λ node. node ≡ is_written_out kind.AssignPatProp old fields) }
{
    let target = fields.replace(assign_pat_prop::KEY, Node::Absent);
    let value = fields.replace(assign_pat_prop::VALUE, Node::Absent);
    let target = with_default(alloc, &old, target, value)?;
    fields.set(assign_pat_prop::KEY, target);
    let key = key_of(alloc, old)?;
    let target = fields.replace(assign_pat_prop::KEY, Node::Absent);
    tree(alloc, Kind::KeyValuePatProp, [key, target])
}

// The fields of a specifier, whose name was `old` and changed.
fn specifier_fields(
    alloc: Global,
    old: Ident,
    mut fields: Items<Node>,
) -> Result<Items<Node>, NoMemory>
    requires { length fields ≡ 3 }
    ensures { IfOk result (λ fields'. fields' ≡ with_other old fields) }
{
    let other = fields.replace(2, Node::Absent);
    let other = or_kept(alloc, old, other)?;
    fields.set(2, other);
    Ok(fields)
}

// A node of a kind and with these fields, whose name, in the second field, was `old` and changed.
fn written_out(alloc: Global, kind: Kind, old: Ident, fields: Items<Node>) -> Result<Node, NoMemory>
    ensures { IfOk result (λ node. node ≡ is_written_out kind old fields) }
{
    match kind {
        Kind::AssignPatProp if fields.len() == 3 => pattern_property(alloc, old, fields),
        Kind::ImportNamedSpecifier | Kind::ExportNamedSpecifier if fields.len() == 3 => {
            let fields = specifier_fields(alloc, old, fields)?;
            Ok(Node::Tree(kind, fields))
        }
        _ => Ok(Node::Tree(kind, fields)),
    }
}

// The same where the name may have stayed.
fn written_out_if(
    alloc: Global,
    kind: Kind,
    old: Option<Ident>,
    fields: Items<Node>,
) -> Result<Node, NoMemory>
    ensures { IfOk result (λ node. node ≡ is_written_out_if kind old fields) }
{
    match old {
        None => Ok(Node::Tree(kind, fields)),
        Some(old) => written_out(alloc, kind, old, fields),
    }
}

/// A node of a kind and with these fields, where the identifier in the second is still to be renamed.
pub fn rename_named(
    alloc: Global,
    names: Names,
    place: Place,
    kind: Kind,
    mut fields: Items<Node>,
) -> Result<Node, NoMemory>
    requires { 1 < length fields }
    ensures { IfOk result (IsRenamed (new_id names.entry) place kind fields) }
{
    match fields.replace(1, Node::Absent) {
        Node::Identifier(name_kind, name) => {
            let (name, old) = rename(alloc, names, place, name)?;
            fields.set(1, Node::Identifier(name_kind, name));
            written_out_if(alloc, kind, old, fields)
        }
        other => {
            fields.set(1, other);
            Ok(Node::Tree(kind, fields))
        }
    }
}
