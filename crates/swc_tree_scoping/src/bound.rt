//! The names that patterns and declarations bind.
ghost use Rattle.std.specs.Prelude.{◌≡◌, ◌++◌, OnErr, OnOk, map, slice_get};
ghost use Rattle.std.specs.List.{flat_map};
ghost use Rattle.std.specs.Option.{option_copied};
ghost use Rattle.swc_tree_scoping.specs.BoundNames.{bound_ids, declared_ids, id_of, in_part, in_parts, name_of, own_id, PartlyAdded};
ghost use Rattle.swc_tree_scoping.specs.Places.{field_role};

use crate::below::role_of_field;
use swc_tree_node::fields::{class_decl, fn_decl};
use swc_tree_node::swc_tree_items::Items;
use swc_tree_node::swc_tree_marks::{Id, Ident, NoMemory};
use swc_tree_node::{Kind, Node, Role};

// Adds the id of an identifier, if its kind is that of patterns.
fn add_own(kind: Kind, ident: &Ident, ids: &mut Items<Id>) -> Result<(), NoMemory>
    ensures ok { OnOk result (ids.new ≡ ids.old ++ own_id kind ident.now) }
    ensures err { OnErr result (ids.new ≡ ids.old) }
{
    match kind {
        Kind::BindingIdent => {
            ids.push(ident.to_id()?)?;
            Ok(())
        }
        _ => Ok(()),
    }
}

/// Adds the ids that a pattern binds, or the declarators of a declaration, in order. It costs time in step with the
/// size of the patterns, their keys and defaults left out.
///
/// # Errors
///
/// `NoMemory` where memory was refused. A beginning of the ids stands then behind what the list was.
#[cycle(bound)]
#[tactic(auto, using(crate::proofs::BoundNames::bound))]
pub fn add_bound_ids(node: &Node, ids: &mut Items<Id>) -> Result<(), NoMemory>
    ensures ok { OnOk result (ids.new ≡ ids.old ++ bound_ids node.now) }
    ensures err { OnErr result (PartlyAdded ids.old (bound_ids node.now) ids.new) }
{
    match node {
        Node::Identifier(kind, ident) => { add_own(*kind, ident.get(), ids) }
        Node::List(items) => { add_bound_in_items(items.as_slice(), ids) }
        Node::Tree(kind, fields) => { add_bound_in_fields(*kind, fields.as_slice(), ids) }
        _ => Ok(()),
    }
}

/// The same of each of the items.
///
/// # Errors
///
/// `NoMemory` where memory was refused, as for one.
#[cycle(bound)]
pub fn add_bound_in_items(items: &[Node], ids: &mut Items<Id>) -> Result<(), NoMemory>
    ensures ok { OnOk result (ids.new ≡ ids.old ++ flat_map bound_ids items.now) }
    ensures err { OnErr result (PartlyAdded ids.old (flat_map bound_ids items.now) ids.new) }
{
    for item in items {
        add_bound_ids(item, ids)?;
    }
    Ok(())
}

#[cycle(bound)]
fn add_bound_in_fields(kind: Kind, fields: &[Node], ids: &mut Items<Id>) -> Result<(), NoMemory>
    ensures ok { OnOk result (ids.new ≡ ids.old ++ in_parts (field_role kind) (map bound_ids fields.now)) }
    ensures err { OnErr result (PartlyAdded ids.old (in_parts (field_role kind) (map bound_ids fields.now)) ids.new) }
{
    for i in 0..fields.len() {
        add_bound_in_field(role_of_field(kind, i), &fields[i], ids)?;
    }
    Ok(())
}

#[cycle(bound)]
fn add_bound_in_field(role: Role, field: &Node, ids: &mut Items<Id>) -> Result<(), NoMemory>
    ensures ok { OnOk result (ids.new ≡ ids.old ++ in_part role (bound_ids field.now)) }
    ensures err { OnErr result (PartlyAdded ids.old (in_part role (bound_ids field.now)) ids.new) }
{
    match role {
        Role::Declared | Role::Lexical | Role::Inherited => { add_bound_ids(field, ids) }
        _ => Ok(()),
    }
}

// The name in a field.
fn name(fields: &[Node], index: usize) -> Option<&Ident>
    ensures { option_copied result ≡ name_of (slice_get fields.now index) }
{
    match fields.get(index) {
        Some(Node::Identifier(_, ident)) => Some(ident.get()),
        _ => None,
    }
}

// Adds the id of a name, where there is one.
fn add_name(name: Option<&Ident>, ids: &mut Items<Id>) -> Result<(), NoMemory>
    ensures ok { OnOk result (ids.new ≡ ids.old ++ id_of (option_copied name.entry)) }
    ensures err { OnErr result (ids.new ≡ ids.old) }
{
    match name {
        Some(name) => {
            ids.push(name.to_id()?)?;
            Ok(())
        }
        None => Ok(()),
    }
}

/// Adds the ids that a declaration binds, in order.
///
/// # Errors
///
/// `NoMemory` where memory was refused. A beginning of the ids stands then behind what the list was.
pub fn add_declared_ids(node: &Node, ids: &mut Items<Id>) -> Result<(), NoMemory>
    ensures ok { OnOk result (ids.new ≡ ids.old ++ declared_ids node.now) }
    ensures err { OnErr result (PartlyAdded ids.old (declared_ids node.now) ids.new) }
{
    match node {
        Node::Tree(Kind::FnDecl, fields) => {
            add_name(name(fields.as_slice(), fn_decl::IDENT), ids)
        }
        Node::Tree(Kind::ClassDecl, fields) => {
            add_name(name(fields.as_slice(), class_decl::IDENT), ids)
        }
        _ => add_bound_ids(node, ids),
    }
}
