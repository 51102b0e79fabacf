//! Where an identifier stands.
ghost use Rattle.std.specs.Prelude.{◌≡◌};
ghost use Rattle.swc_base_rename_substitution.specs.Places.{by_role as is_by_role, is_name as is_binding_or_reference, place_below as is_below, within as is_within};
ghost use Rattle.swc_base_rename_substitution.specs.Walk.{place_in};

use swc_tree_node::{Kind, Role};
use swc_tree_scoping::role_of_field;

/// What an identifier is at its place, as far as substitution goes by it.
#[derive(Clone, Copy, PartialEq, Eq)]
pub enum Place {
    /// A binding or a reference.
    Name,
    /// A shorthand property of an object literal: the key, and a reference.
    Shorthand,
    /// A declaration right below `export`, as in `export class A {}`.
    Exported,
    /// The name of a class expression, where classes keep their names.
    ClassName,
    /// A label, or an imported or exported name.
    Other,
}

// Whether an identifier there is a binding or a reference.
fn is_name(place: Place) -> bool
    ensures { result ≡ is_binding_or_reference place }
{
    !matches!(place, Place::Other | Place::Exported)
}

// The place of a part of what stands at a place.
fn within(place: Place) -> Place
    ensures { result ≡ is_within place }
{
    if is_name(place) {
        Place::Name
    } else {
        Place::Other
    }
}

// The place of a field by its role; `sourced` says whether the node is an export list with a source.
fn by_role(place: Place, sourced: bool, role: Role) -> Place
    ensures { result ≡ is_by_role place sourced role }
{
    match role {
        Role::Inherited => within(place),
        Role::Plain | Role::Label | Role::Imported | Role::Exported => Place::Other,
        Role::TypeName | Role::TypeReference => Place::Other,
        Role::ExportLocal if sourced => Place::Other,
        _ => Place::Name,
    }
}

// The place that is a field of a node at `place`.
//
// `sourced` says whether the node is an export list with a source, `keeps_classes` whether classes keep
// their names.
fn place_below(keeps_classes: bool, place: Place, sourced: bool, kind: Kind, role: Role) -> Place
    ensures { result ≡ is_below keeps_classes place sourced kind role }
{
    match (kind, by_role(place, sourced, role)) {
        (Kind::ObjectLit, Place::Name) => Place::Shorthand,
        (Kind::ExportDecl, Place::Other) => Place::Exported,
        (Kind::ClassExpr, Place::Name) if keeps_classes => Place::ClassName,
        (_, place) => place,
    }
}

/// What the places below a node go by.
#[derive(Clone, Copy)]
pub enum Below {
    /// The items of a list at a place.
    Items(Place),
    /// The fields of a node at a place, whether it has a source as an export list, and its kind.
    Fields(Place, bool, Kind),
    /// The same, but that a name in the second field stays.
    Others(Place, bool, Kind),
}

impl Below {
    /// The place of an item or a field.
    #[tactic(auto, using(crate::proofs::Fields::others_at))]
    pub fn place(self, keeps_classes: bool, index: usize) -> Place
        ensures { result ≡ place_in keeps_classes self index }
    {
        match self {
            Below::Items(place) => place,
            Below::Fields(whole, sourced, kind) => {
                place_below(
                    keeps_classes,
                    whole,
                    sourced,
                    kind,
                    role_of_field(kind, index),
                )
            }
            Below::Others(whole, sourced, kind) => {
                if index == 1 {
                    Place::Other
                } else {
                    place_below(
                        keeps_classes,
                        whole,
                        sourced,
                        kind,
                        role_of_field(kind, index),
                    )
                }
            }
        }
    }
}
