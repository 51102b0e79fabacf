//! Identifiers that get their new names, and the nodes that write a changed name out.
ghost use Rattle.std.specs.Prelude.{◌≡◌, IfOk, Some, unwrap_or};
ghost use Rattle.swc_base_rename_substitution.specs.Names.{new_id};
ghost use Rattle.swc_base_rename_substitution.specs.Identifiers.{changed, id_of, identifier_to, kept_name, with_id};
ghost use Rattle.swc_base_rename_substitution.specs.Substituted.{if_changed};
ghost use Rattle.swc_tree_scoping.specs.Shorthands.{computed_key as is_computed_key, key_of as is_key_of, shorthand_key as is_shorthand_key};

use crate::names::Names;
use crate::place::Place;
use std::alloc::Global;
use std::mem;
use swc_tree_items::{Boxed, Items, Text};
use swc_tree_marks::{Id, Ident, NoMemory, SyntaxContext};
use swc_tree_node::{Kind, Node};

// The id of an identifier, which keeps its span alone. It takes no memory.
fn take_id(alloc: Global, ident: &mut Ident) -> Id
    ensures id { result ≡ id_of ident.old }
    ensures span { ident.new.span ≡ ident.old.span }
{
    let sym = mem::replace(&mut ident.sym, Text::empty());
    let ctxt = mem::replace(&mut ident.ctxt, SyntaxContext::empty(alloc));
    (sym, ctxt)
}

// Gives an identifier an id.
fn give_id(ident: &mut Ident, id: Id)
    ensures { ident.new ≡ with_id ident.old id }
{
    let (sym, ctxt) = id;
    ident.sym = sym;
    ident.ctxt = ctxt;
}

/// The identifier with its new id, and beside it how it was where its text changed.
pub fn rename(
    alloc: Global,
    names: Names,
    place: Place,
    mut ident: Boxed<Ident>,
) -> Result<(Boxed<Ident>, Option<Ident>), NoMemory>
    ensures new { IfOk result (λ r. r.0 ≡ unwrap_or (changed (new_id names.entry) place ident) ident) }
    ensures old { IfOk result (λ r. r.1 ≡ if_changed (new_id names.entry) place (Some ident)) }
{
    if matches!(place, Place::ClassName | Place::Exported | Place::Other) {
        return Ok((ident, None));
    }
    let span = ident.get().span;
    let id = take_id(alloc, ident.get_mut());
    match names.new_id(alloc, &id)? {
        Some(new) => {
            give_id(ident.get_mut(), new);
            let (sym, ctxt) = id;
            Ok((ident, Some(Ident { span, ctxt, sym })))
        }
        None => {
            give_id(ident.get_mut(), id);
            Ok((ident, None))
        }
    }
}

/// The identifier as a name that is kept: with the empty context.
pub fn keep_name(alloc: Global, mut ident: Boxed<Ident>) -> Boxed<Ident>
    ensures { result ≡ kept_name ident }
{
    ident.get_mut().ctxt = SyntaxContext::empty(alloc);
    ident
}

/// A node of a kind with these fields.
pub fn tree<const N: usize>(alloc: Global, kind: Kind, fields: [Node; N]) -> Result<Node, NoMemory>
    ensures { IfOk result (λ node. node ≡ Node.Tree kind fields.entry) }
{
    let fields = Vec::from_array(alloc, fields)?;
    Ok(Node::Tree(kind, Items::from_vec(fields)))
}

/// The key of a property, by a name.
pub fn key_of(alloc: Global, name: Ident) -> Result<Node, NoMemory>
    ensures { IfOk result (λ node. node ≡ is_key_of name) }
{
    tree(
        alloc,
        Kind::IdentName,
        [Node::Span(name.span), Node::Text(name.sym)],
    )
}

// The key of the property that a shorthand made.
fn shorthand_key(alloc: Global, name: Ident) -> Result<Node, NoMemory>
    ensures { IfOk result (λ node. node ≡ is_shorthand_key name) }
{
    if name.sym.as_str() != "__proto__" {
        return key_of(alloc, name);
    }
    computed_key(alloc, name)
}

// A computed key, which sets no prototype.
fn computed_key(alloc: Global, name: Ident) -> Result<Node, NoMemory>
    ensures { IfOk result (λ node. node ≡ is_computed_key name) }
{
    let Ident { span, sym, .. } = name;
    let fields = [Node::Span(span), Node::Text(sym), Node::Absent];
    let text = tree(alloc, Kind::Str, fields)?;
    tree(alloc, Kind::ComputedPropName, [Node::Span(span), text])
}

// The property that a shorthand becomes, whose identifier was `old` and changed.
fn property(alloc: Global, old: Ident, kind: Kind, ident: Boxed<Ident>) -> Result<Node, NoMemory>
    ensures { IfOk result (λ node. node ≡ identifier_to Place.Shorthand kind old (Some ident)) }
{
    let key = shorthand_key(alloc, old)?;
    let fields = [key, Node::Identifier(kind, ident)];
    tree(alloc, Kind::KeyValueProp, fields)
}

/// What stands in the place of an identifier.
pub fn substitute_identifier(
    alloc: Global,
    names: Names,
    place: Place,
    kind: Kind,
    ident: Boxed<Ident>,
) -> Result<Node, NoMemory>
    ensures { IfOk result (λ node. node ≡ identifier_to place kind ident (changed (new_id names.entry) place ident)) }
{
    if place == Place::ClassName {
        return Ok(Node::Identifier(kind, keep_name(alloc, ident)));
    }
    let (ident, old) = rename(alloc, names, place, ident)?;
    match old {
        Some(old) if place == Place::Shorthand => property(alloc, old, kind, ident),
        _ => Ok(Node::Identifier(kind, ident)),
    }
}
