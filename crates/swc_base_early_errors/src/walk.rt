//! A walk over the claims of a program.
ghost use Rattle.std.specs.Prelude.{◌≡◌, ℕ, ◌+◌, ◌↔◌, IsTrue, IfOk, List, [], length};
ghost use Rattle.swc_tree_scoping.specs.declared.places.View.{View};
ghost use Rattle.swc_tree_scoping.specs.Below.{places_of, view_of};
ghost use Rattle.swc_tree_scoping.specs.Folds.{each_in};
ghost use Rattle.swc_tree_scoping.specs.Places.{program_place};
ghost use Rattle.swc_tree_scoping.specs.Scopes.{scope_count, total};
ghost use Rattle.swc_base_resolver_program.specs.Lookup.{layers};
ghost use Rattle.swc_base_resolver_program.specs.Walks.{AreBelow, sees};
ghost use Rattle.swc_base_early_errors.specs.Claims.{ClaimsAt, ClaimsBelow, Twice, Walked, note_in};

use crate::claims::{ClaimedNames, Rule, clashes};
use std::alloc::{AllocError, Global};
use swc_base_resolver_program::{Env, Inside, Views};
use swc_tree_node::Node;
use swc_tree_scoping::{PROGRAM_PLACE, Place, PlacesBelow, places_of_fields, places_of_items};

/// Whether two identifiers of a program claim one name against a rule.
///
/// It looks at each at most once, and stops at the second of the first two that it finds.
///
/// # Errors
///
/// Where memory was refused.
pub fn has_two(alloc: Global, rule: Rule, program: &Node) -> Result<bool, AllocError>
    ensures { IfOk result (λ has_two. IsTrue has_two ↔ Twice (ClaimsAt rule [] 0 program_place program.now)) }
{
    let mut tables = Vec::new(alloc);
    let has_two = claim(alloc, rule, program, PROGRAM_PLACE, &Env::Top, &mut tables)?;
    Ok(has_two)
}

// Notes the claims of a node, and gives whether one clashes with what is noted or with another.
#[cycle(claim)]
fn claim(
    alloc: Global,
    rule: Rule,
    node: &Node,
    place: Place,
    env: &Env,
    tables: &mut Vec<ClaimedNames>,
) -> Result<bool, AllocError>
    requires { AreBelow (length tables.old.items) (layers env.now) }
    ensures { IfOk result (λ clash. Walked clash tables.old.items tables.new.items (scope_count place node.now) (ClaimsAt rule (layers env.now) (length tables.old.items) place node.now)) }
{
    match node {
        Node::Identifier(_, ident) => {
            let name = ident.get().sym.as_str();
            let clash = clashes(alloc, tables, rule.claim(place, &*env), name)?;
            Ok(clash)
        }
        Node::List(items) => {
            let items = items.as_slice();
            let places = places_of_items(place);
            let clash = claim_below(alloc, rule, items, places, Views::Plain(&*env), tables)?;
            Ok(clash)
        }
        Node::Tree(kind, fields) => {
            let fields = fields.as_slice();
            let places = places_of_fields(place, *kind, fields);
            match places.opened() {
                Some(scope) => {
                    let number = add_table(alloc, tables)?;
                    let inside = Inside::new(scope, number, &*env);
                    let views = Views::Opened(&inside);
                    let clash = claim_below(alloc, rule, fields, places, views, tables)?;
                    Ok(clash)
                }
                None => {
                    let views = Views::Plain(&*env);
                    let clash = claim_below(alloc, rule, fields, places, views, tables)?;
                    Ok(clash)
                }
            }
        }
        _ => Ok(false),
    }
}

// The same of the children of a node.
#[cycle(claim)]
fn claim_below(
    alloc: Global,
    rule: Rule,
    nodes: &[Node],
    places: PlacesBelow,
    views: Views,
    tables: &mut Vec<ClaimedNames>,
) -> Result<bool, AllocError>
    requires { (v : View) → AreBelow (length tables.old.items) (sees views v) }
    ensures { IfOk result (λ clash. Walked clash tables.old.items tables.new.items (total (each_in scope_count (places_of places nodes.now) nodes.now)) (ClaimsBelow rule (λ i. sees views.entry (view_of places i)) (length tables.old.items) (places_of places nodes.now) nodes.now (length nodes.now))) }
{
    for i in 0..nodes.len() {
        let node = &nodes[i];
        // Where no identifier can stand no place is worked out.
        if !node.may_hold_names() {
            continue;
        }
        let env = views.seen(places.view(i));
        let clash = claim(alloc, rule, node, places.at(i, node), env, tables)?;
        if clash {
            return Ok(true);
        }
    }
    Ok(false)
}

// Adds the table of one scope more, in which no name is claimed yet, and gives the number of the scope.
fn add_table(alloc: Global, tables: &mut Vec<ClaimedNames>) -> Result<usize, AllocError>
    ensures number { IfOk result (λ number. number ≡ length tables.old.items) }
    ensures size { IfOk result (λ _. length tables.new.items ≡ length tables.old.items + 1) }
    ensures alike { IfOk result (λ _. (k : ℕ) (x : List ℕ) → note_in tables.new.items k x ≡ note_in tables.old.items k x) }
{
    let number = tables.len();
    tables.push(ClaimedNames::new(alloc))?;
    Ok(number)
}
