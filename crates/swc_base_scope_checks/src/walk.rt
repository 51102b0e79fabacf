//! A look for an identifier, by where it stands and by the scopes that are open there.
ghost use Rattle.std.specs.Prelude.{◌≡◌, ◌↔◌, ◌+◌, ◌<◌, ◌^◌, IsTrue, [], false, length};
ghost use Rattle.swc_tree_scoping.specs.Below.{places_of, view_of};
ghost use Rattle.swc_tree_scoping.specs.Folds.{each_in};
ghost use Rattle.swc_tree_scoping.specs.Places.{program_place};
ghost use Rattle.swc_tree_scoping.specs.Scopes.{scope_count, total};
ghost use Rattle.swc_base_resolver_program.specs.Lookup.{layers};
ghost use Rattle.swc_base_resolver_program.specs.Walks.{sees};
ghost use Rattle.swc_base_scope_checks.specs.Asked.{Passes, PassesBelow, is_list, listed_at};

use swc_base_resolver_program::{Env, Inside, Views};
use swc_tree_marks::Ident;
use swc_tree_node::{Kind, Node, Role};
use swc_tree_scoping::{
    PROGRAM_PLACE, Place, PlacesBelow, places_of_fields, places_of_items, role_of_field,
};

/// Tells of an identifier, by its place, by whether it stands in an export list, and by the scopes that are open there, whether it
/// is one that is looked for.
pub trait Question {
    ghost use Rattle.std.specs.Prelude.{◌≡◌, Bool, List};
    ghost use Rattle.swc_tree_marks.specs.declared.ident.Ident.{Ident as Ident'};
    ghost use Rattle.swc_tree_scoping.specs.declared.places.Place.{Place as Place'};
    ghost use Rattle.swc_base_resolver_program.specs.Lookup.{Open, layers};

    /// Whether it is.
    ghost is_sought: { Self → Place' → Ident' → Bool → List Open → Bool };

    /// Whether the identifier is one that is looked for.
    fn is_sought(&self, place: Place, ident: &Ident, listed: bool, env: &Env) -> bool
        ensures { result ≡ is_sought self.now place ident.now listed (layers env.now) };
}

// Which children of a node stand in an export list.
#[derive(Clone, Copy)]
pub enum Listed {
    /// All or none, as the node does.
    Items(bool),
    /// The fields of a tree of that kind, which itself does or does not.
    Fields(Kind, bool),
}

impl Listed {
    // Whether the child at an index does.
    fn at(self, index: usize) -> bool
        ensures { result ≡ listed_at self index }
    {
        match self {
            Listed::Items(listed) => listed,
            Listed::Fields(kind, listed) => listed || is_export_list(kind, index),
        }
    }
}

// Whether a field is the list of an export declaration.
fn is_export_list(kind: Kind, index: usize) -> bool
    ensures { result ≡ is_list kind index }
{
    matches!(role_of_field(kind, index), Role::ExportLocal)
}

/// Whether an identifier that is looked for stands in a program.
///
/// It looks at each at most once, and stops at the first that it finds.
pub fn has_identifier<Q: Question>(question: &Q, program: &Node) -> bool
    requires { scope_count program_place program.now < 2 ^ 64 }
    ensures { IsTrue result ↔ Passes (Q.is_sought question.now) false [] 0 program_place program.now }
{
    let mut next = 0;
    seek(
        question,
        program,
        PROGRAM_PLACE,
        false,
        &Env::Top,
        &mut next,
    )
}

// The same of a node, round which these scopes are open; `next` is how many scopes begin before it.
#[cycle(seek)]
fn seek<Q: Question>(
    question: &Q,
    node: &Node,
    place: Place,
    listed: bool,
    env: &Env,
    next: &mut usize,
) -> bool
    requires { next.old + scope_count place node.now < 2 ^ 64 }
    ensures found { IsTrue result ↔ Passes (Q.is_sought question.now) listed (layers env.now) next.old place node.now }
    ensures next { result ≡ false → next.new ≡ next.old + scope_count place node.now }
{
    match node {
        Node::Identifier(_, ident) => question.is_sought(place, ident.get(), listed, &*env),
        Node::List(items) => {
            let items = items.as_slice();
            let places = places_of_items(place);
            let views = Views::Plain(&*env);
            seek_below(question, items, places, Listed::Items(listed), views, next)
        }
        Node::Tree(kind, fields) => {
            let fields = fields.as_slice();
            let places = places_of_fields(place, *kind, fields);
            let lists = Listed::Fields(*kind, listed);
            match places.opened() {
                Some(scope) => {
                    let inside = Inside::new(scope, *next, &*env);
                    *next += 1;
                    let views = Views::Opened(&inside);
                    seek_below(question, fields, places, lists, views, next)
                }
                None => {
                    let views = Views::Plain(&*env);
                    seek_below(question, fields, places, lists, views, next)
                }
            }
        }
        _ => false,
    }
}

// The same of the children of a node.
#[cycle(seek)]
fn seek_below<Q: Question>(
    question: &Q,
    nodes: &[Node],
    places: PlacesBelow,
    lists: Listed,
    views: Views,
    next: &mut usize,
) -> bool
    requires { next.old + total (each_in scope_count (places_of places nodes.now) nodes.now) < 2 ^ 64 }
    ensures found { IsTrue result ↔ PassesBelow (Q.is_sought question.now) (λ i. listed_at lists i) (λ i. sees views.entry (view_of places i)) next.old (places_of places nodes.now) nodes.now (length nodes.now) }
    ensures next { result ≡ false → next.new ≡ next.old + total (each_in scope_count (places_of places nodes.now) nodes.now) }
{
    for i in 0..nodes.len() {
        let node = &nodes[i];
        // Where no identifier can stand no place is worked out.
        if !node.may_hold_names() {
            continue;
        }
        let env = views.seen(places.view(i));
        if seek(question, node, places.at(i, node), lists.at(i), env, next) {
            return true;
        }
    }
    false
}
