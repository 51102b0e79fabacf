//! The walk over a tree that lays out its scopes and names.
ghost use Rattle.std.specs.Prelude.{◌≡◌, ◌<◌, Some, IfOk, OnOk, length};
ghost use Rattle.std.specs.Option.{option_copied};
ghost use Rattle.swc_tree_node.specs.declared.node.Node.{Tree};
ghost use Rattle.swc_tree_scoping.specs.Below.{place_of, places_of};
ghost use Rattle.swc_tree_scoping.specs.Places.{is_at};
ghost use Rattle.swc_base_rename_analysis.specs.Preserved.{is_name_or_label as stands_so};
ghost use Rattle.swc_base_rename_analysis.specs.Walk.{child_at as is_child_at, laid_of, laid_out, outside_of, own_use, round_field as is_round_field, turns_of, walk_but as but_walked, walk_field as field_walked, walk_fields as fields_walked, walk_in, walk_items as items_walked, walk_name as name_walked, walk_optional as optional_walked, walk_scope as scope_walked, walks_at, walks_of};

use crate::layout::{Layout, Name};
use crate::own_names::own_name;
use crate::scopes::{ScopeKind, is_for_body, key_field, name_outside, opened_kind};
use std::alloc::{AllocError, Global};
use swc_tree_marks::Ident;
use swc_tree_node::fields::catch_clause;
use swc_tree_node::{Kind, Node, Role};
use swc_tree_scoping::{
    PROGRAM_PLACE, Place, PlacesBelow, Standing, is_binding, is_reference, places_of_fields,
    places_of_items, role_of_field,
};

/// What is round a node beside its place.
#[derive(Clone, Copy)]
pub struct Around<'a> {
    /// The number of the innermost scope.
    scope: Option<usize>,
    /// Whether it stands in an export list.
    exported: bool,
    /// Whether the node is the body of a `for` statement.
    for_body: bool,
    /// The name of the node, a function that counts as using it.
    own_name: Option<&'a Ident>,
}

/// What a tree is beside its fields: its kind, and what the places of the fields go by.
#[derive(Drop)]
pub struct Head {
    kind: Kind,
    places: PlacesBelow,
}

/// The scopes and the names of a tree.
pub fn lay_out(alloc: Global, tree: &Node) -> Result<Layout<'_>, AllocError>
    ensures { IfOk result (λ layout. laid_of layout ≡ laid_out tree.now) }
{
    let mut layout = Layout::new(alloc);
    let around = Around {
        scope: None,
        exported: false,
        for_body: false,
        own_name: None,
    };
    walk(tree, PROGRAM_PLACE, &around, &mut layout)?;
    Ok(layout)
}

// Whether an identifier that stands so is a name or a label.
fn is_name_or_label(standing: Standing) -> bool
    ensures { result ≡ stands_so standing }
{
    standing == Standing::Label || is_binding(standing) || is_reference(standing)
}

#[cycle(walk)]
fn walk<'a>(
    node: &'a Node,
    place: Place,
    around: &Around<'a>,
    layout: &mut Layout<'a>,
) -> Result<(), AllocError>
    ensures { OnOk result (laid_of layout.new ≡ walk_in place node.now (outside_of around.now) (laid_of layout.old)) }
{
    match node {
        Node::Identifier(_, ident) => walk_name(ident.get(), place, around, layout),
        Node::List(items) => walk_items(items.as_slice(), &places_of_items(place), around, layout),
        Node::Tree(kind, fields) => walk_tree(*kind, fields.as_slice(), place, around, layout),
        _ => Ok(()),
    }
}

// An identifier, which counts if it is a name or a label.
fn walk_name<'a>(
    ident: &'a Ident,
    place: Place,
    around: &Around<'a>,
    layout: &mut Layout<'a>,
) -> Result<(), AllocError>
    ensures { OnOk result (laid_of layout.new ≡ name_walked place ident.now (outside_of around.now) (laid_of layout.old)) }
{
    if is_name_or_label(place.standing) {
        layout.push(Name {
            ident,
            standing: place.standing,
            scope: around.scope,
            exported: around.exported,
        })?;
    }
    Ok(())
}

// A tree by its kind and its fields.
#[cycle(walk)]
fn walk_tree<'a>(
    kind: Kind,
    fields: &'a [Node],
    place: Place,
    around: &Around<'a>,
    layout: &mut Layout<'a>,
) -> Result<(), AllocError>
    ensures { OnOk result (laid_of layout.new ≡ walk_in place (Tree kind fields.now) (outside_of around.now) (laid_of layout.old)) }
{
    let head = Head {
        kind,
        places: places_of_fields(place, kind, fields),
    };
    match opened_kind(around.for_body, kind, head.places.opened()) {
        None => walk_fields(&head, fields, around, None, layout),
        Some(scope) => walk_scope(scope, place, &head, fields, around, layout),
    }
}

#[cycle(walk)]
fn walk_items<'a>(
    items: &'a [Node],
    places: &PlacesBelow,
    around: &Around<'a>,
    layout: &mut Layout<'a>,
) -> Result<(), AllocError>
    ensures { OnOk result (laid_of layout.new ≡ items_walked (walks_at (places_of places.now items.now) items.now) (length items.now) (outside_of around.now) (laid_of layout.old)) }
{
    let below = Around {
        for_body: false,
        own_name: None,
        ..*around
    };
    for i in 0..items.len() {
        walk_item(i, &items[i], places, &below, layout)?;
    }
    Ok(())
}

// An item of a list, by its index, if names may stand in it.
#[cycle(walk)]
fn walk_item<'a>(
    index: usize,
    item: &'a Node,
    places: &PlacesBelow,
    around: &Around<'a>,
    layout: &mut Layout<'a>,
) -> Result<(), AllocError>
    ensures { OnOk result (laid_of layout.new ≡ walk_in (place_of places.now index (Some item.now)) item.now (outside_of around.now) (laid_of layout.old)) }
{
    if !item.may_hold_names() {
        return Ok(());
    }
    walk(item, places.at(index, item), around, layout)
}

// A key comes before the scope that its node opens, and the identifier of a class that is the default export before the names in it.
#[cycle(walk)]
fn walk_scope<'a>(
    scope: ScopeKind,
    place: Place,
    head: &Head,
    fields: &'a [Node],
    around: &Around<'a>,
    layout: &mut Layout<'a>,
) -> Result<(), AllocError>
    ensures { OnOk result (laid_of layout.new ≡ scope_walked scope place head.now.kind fields.now (walks_of head.now fields.now) (outside_of around.now) (laid_of layout.old)) }
{
    let key = key_field(head.kind);
    walk_optional(head, fields, key, around, layout)?;
    let number = layout.enter(scope, around.scope)?;
    let name = name_outside(place, head.kind, fields);
    walk_optional(head, fields, name, around, layout)?;
    layout.begin(number);
    use_own_name(number, around, layout)?;
    let inside = Around {
        scope: Some(number),
        ..*around
    };
    walk_fields(head, fields, &inside, key.or(name), layout)?;
    layout.end(number);
    Ok(())
}

// The name of a function that counts as using it stands in the function's scope, of that number.
fn use_own_name<'a>(
    number: usize,
    around: &Around<'a>,
    layout: &mut Layout<'a>,
) -> Result<(), AllocError>
    ensures { OnOk result (laid_of layout.new ≡ own_use number (outside_of around.now) (option_copied around.now.own_name) (laid_of layout.old)) }
{
    match around.own_name {
        Some(ident) => {
            layout.push(Name {
                ident,
                standing: Standing::Reference,
                scope: Some(number),
                exported: around.exported,
            })
        }
        None => Ok(()),
    }
}

// The field of that number, if there is one.
#[cycle(walk)]
fn walk_optional<'a>(
    head: &Head,
    fields: &'a [Node],
    index: Option<usize>,
    around: &Around<'a>,
    layout: &mut Layout<'a>,
) -> Result<(), AllocError>
    ensures { OnOk result (laid_of layout.new ≡ optional_walked head.now.kind fields.now (walks_of head.now fields.now) index (outside_of around.now) (laid_of layout.old)) }
{
    match index {
        Some(index) => walk_field(head, fields, index, around, layout),
        None => Ok(()),
    }
}

// The child whose turn it is: the body of a catch clause comes before its parameter.
fn child_at(kind: Kind, turn: usize) -> usize
    ensures { result ≡ is_child_at kind turn }
{
    match kind {
        Kind::CatchClause => match turn {
            catch_clause::PARAM => catch_clause::BODY,
            catch_clause::BODY => catch_clause::PARAM,
            _ => turn,
        },
        _ => turn,
    }
}

// How many turns the fields of a tree take. The parameter of a catch clause has the turn of its body: where the parameter is
// the last field, as no table has it but a node may, that turn comes one past the last field.
fn turns(kind: Kind, fields: &[Node]) -> usize
    ensures { result ≡ turns_of kind (length fields.now) }
{
    match kind {
        Kind::CatchClause => fields.len() + 1,
        _ => fields.len(),
    }
}

// All fields but one, each in its turn.
#[cycle(walk)]
fn walk_fields<'a>(
    head: &Head,
    fields: &'a [Node],
    around: &Around<'a>,
    but: Option<usize>,
    layout: &mut Layout<'a>,
) -> Result<(), AllocError>
    ensures { OnOk result (laid_of layout.new ≡ fields_walked head.now.kind fields.now (walks_of head.now fields.now) but (outside_of around.now) (laid_of layout.old)) }
{
    for turn in 0..turns(head.kind, fields) {
        walk_but(head, fields, child_at(head.kind, turn), around, but, layout)?;
    }
    Ok(())
}

// Whether a field is that one.
fn is_that(but: Option<usize>, index: usize) -> bool
    ensures { result ≡ is_at but index }
{
    match but {
        Some(but) => but == index,
        None => false,
    }
}

// A field, unless it is that one, if it is there and names may stand in it.
#[cycle(walk)]
fn walk_but<'a>(
    head: &Head,
    fields: &'a [Node],
    index: usize,
    around: &Around<'a>,
    but: Option<usize>,
    layout: &mut Layout<'a>,
) -> Result<(), AllocError>
    ensures { OnOk result (laid_of layout.new ≡ but_walked head.now.kind fields.now (walks_of head.now fields.now) but index (outside_of around.now) (laid_of layout.old)) }
{
    let Some(child) = fields.get(index) else {
        return Ok(());
    };
    if !child.may_hold_names() {
        return Ok(());
    }
    if is_that(but, index) {
        return Ok(());
    }
    walk_branch(head, fields, index, around, layout)
}

// What is round a field, beside its place.
fn round_field<'a>(kind: Kind, fields: &'a [Node], index: usize, around: &Around<'a>) -> Around<'a>
    ensures { outside_of result ≡ is_round_field kind fields.now (outside_of around.now) index }
{
    Around {
        scope: around.scope,
        exported: around.exported || matches!(role_of_field(kind, index), Role::ExportLocal),
        for_body: is_for_body(kind, index),
        own_name: own_name(kind, fields, index),
    }
}

// A field, if it is there and names may stand in it.
#[cycle(walk)]
fn walk_field<'a>(
    head: &Head,
    fields: &'a [Node],
    index: usize,
    around: &Around<'a>,
    layout: &mut Layout<'a>,
) -> Result<(), AllocError>
    ensures { OnOk result (laid_of layout.new ≡ field_walked head.now.kind fields.now (walks_of head.now fields.now) index (outside_of around.now) (laid_of layout.old)) }
{
    match fields.get(index) {
        Some(child) if !child.may_hold_names() => Ok(()),
        Some(_) => walk_branch(head, fields, index, around, layout),
        None => Ok(()),
    }
}

// A field that is there. It is kept out of the loop over the fields, which thus has little to do where no name stands.
#[cycle(walk)]
#[inline(never)]
fn walk_branch<'a>(
    head: &Head,
    fields: &'a [Node],
    index: usize,
    around: &Around<'a>,
    layout: &mut Layout<'a>,
) -> Result<(), AllocError>
    requires { index < length fields.now }
    ensures { OnOk result (laid_of layout.new ≡ field_walked head.now.kind fields.now (walks_of head.now fields.now) index (outside_of around.now) (laid_of layout.old)) }
{
    let child = &fields[index];
    let below = round_field(head.kind, fields, index, around);
    walk(child, head.places.at(index, child), &below, layout)
}
