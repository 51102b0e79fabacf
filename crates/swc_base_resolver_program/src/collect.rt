//! The first two walks: the names that each scope takes, and then those that reach it from blocks.
ghost use Rattle.std.specs.Prelude.{◌≡◌, ◌+◌, ◌<◌, [], length, option_map, slice_get, IfOk, OnOk};
ghost use Rattle.swc_tree_scoping.specs.declared.places.View.{View};
ghost use Rattle.swc_tree_scoping.specs.Below.{places_of, view_of};
ghost use Rattle.swc_tree_scoping.specs.Folds.{each_in};
ghost use Rattle.swc_tree_scoping.specs.Places.{program_place, text_of as text_of_field};
ghost use Rattle.swc_tree_scoping.specs.Scopes.{scope_count, total};
ghost use Rattle.swc_tree_spaces.specs.Spaces.{as_value as stands_as_value, key_name, member_name as member_name_of, names_type as declares_type};
ghost use Rattle.swc_base_resolver_program.specs.Lookup.{layers, same_number};
ghost use Rattle.swc_base_resolver_program.specs.Walks.{AreBelow, Gains, HasMembers, IsAdded, IsMember, Reaches, ReachesBelow, TakeAlike, Takes, TakesIdentifier, is_sought, members_sought, sees, target_in};

use crate::env::{Env, Inside, Views, hoists, meets, taker, variable_scope};
use crate::lookup::TakenNames;
use crate::names::{ScopeNames, Ways};
use std::alloc::{AllocError, Global};
use swc_tree_marks::Ident;
use swc_tree_node::fields::{ident_name, ts_enum_decl, ts_enum_member};
use swc_tree_node::{Kind, Node};
use swc_tree_scoping::{
    PROGRAM_PLACE, Place, PlacesBelow, Standing, is_binding, places_of_fields, places_of_items,
};

/// What a walk looks for.
#[derive(Clone, Copy)]
pub enum Stage<'a> {
    /// For each name that is bound, or declared as a type, the scope that takes it; and the names of an enum's members, for its
    /// scope.
    Bind,
    /// For each plain function of sloppy code in a block, the scope that it is hoisted to; for each variable below
    /// no catch clause whose parameter has its name, the scope that takes it. The names that the scopes take are
    /// given.
    Settle(TakenNames<'a>),
}

// As what an identifier stands, and of which kind it is.
#[derive(Clone, Copy)]
struct Stance {
    standing: Standing,
    kind: Kind,
}

/// The tables of the scopes of a program, the scopes from the front, with just what a walk over it looks for. Up to
/// `room` tables are never moved to larger memory.
pub fn gather_program(
    alloc: Global,
    stage: Stage,
    program: &Node,
    room: usize,
) -> Result<Vec<ScopeNames>, AllocError>
    ensures size { IfOk result (λ tables. length tables.items ≡ scope_count program_place program.now) }
    ensures names { IfOk result (λ tables. Takes tables.items (Reaches stage.entry [] 0 program_place program.now)) }
{
    let mut tables = Vec::with_capacity(alloc, room)?;
    gather(alloc, stage, program, PROGRAM_PLACE, &Env::Top, &mut tables)?;
    Ok(tables)
}

/// The tables of what reaches the scopes from blocks, given the names that they take. There is one for each scope, or
/// none at all where nothing can reach a scope.
pub fn gather_reached(
    alloc: Global,
    bound: TakenNames,
    program: &Node,
    room: usize,
) -> Result<Vec<ScopeNames>, AllocError>
    requires { Takes bound.scopes.now (Reaches Stage.Bind [] 0 program_place program.now) }
    ensures { IfOk result (λ tables. Takes tables.items (Reaches (Stage.Settle bound.entry) [] 0 program_place program.now)) }
{
    // What reaches a scope is first taken by one, as a variable or as such a function.
    if !bound.any_can_reach() {
        return Ok(Vec::new(alloc));
    }
    gather_program(alloc, Stage::Settle(bound), program, room)
}

// Adds the tables of the scopes of a node, and to them and to those of the scopes round it what the stage looks for.
#[cycle(gather)]
fn gather(
    alloc: Global,
    stage: Stage,
    node: &Node,
    place: Place,
    env: &Env,
    tables: &mut Vec<ScopeNames>,
) -> Result<(), AllocError>
    requires { AreBelow (length tables.old.items) (layers env.now) }
    ensures size { OnOk result (length tables.new.items ≡ length tables.old.items + scope_count place node.now) }
    ensures tables { OnOk result (Gains tables.old.items tables.new.items (Reaches stage.entry (layers env.now) (length tables.old.items) place node.now)) }
{
    match node {
        Node::Identifier(kind, ident) => {
            let stance = Stance {
                standing: place.standing,
                kind: *kind,
            };
            gather_identifier(alloc, stage, ident.get(), stance, &*env, tables)?;
            Ok(())
        }
        Node::List(items) => {
            let items = items.as_slice();
            let places = places_of_items(place);
            gather_children(alloc, stage, items, places, Views::Plain(&*env), tables)?;
            Ok(())
        }
        Node::Tree(kind, fields) => {
            let fields = fields.as_slice();
            let places = places_of_fields(place, *kind, fields);
            match places.opened() {
                Some(scope) => {
                    let number = add_table(alloc, tables)?;
                    add_members(alloc, members(stage, *kind, fields), number, tables)?;
                    let inside = Inside::new(scope, number, &*env);
                    let views = Views::Opened(&inside);
                    gather_children(alloc, stage, fields, places, views, tables)?;
                    Ok(())
                }
                None => {
                    let views = Views::Plain(&*env);
                    gather_children(alloc, stage, fields, places, views, tables)?;
                    Ok(())
                }
            }
        }
        _ => Ok(()),
    }
}

#[cycle(gather)]
fn gather_children(
    alloc: Global,
    stage: Stage,
    nodes: &[Node],
    places: PlacesBelow,
    views: Views,
    tables: &mut Vec<ScopeNames>,
) -> Result<(), AllocError>
    requires { (v : View) → AreBelow (length tables.old.items) (sees views v) }
    ensures size { OnOk result (length tables.new.items ≡ length tables.old.items + total (each_in scope_count (places_of places nodes.now) nodes.now)) }
    ensures tables { OnOk result (Gains tables.old.items tables.new.items (ReachesBelow stage.entry (λ i. sees views.entry (view_of places i)) (length tables.old.items) (places_of places nodes.now) nodes.now (length nodes.now))) }
{
    for i in 0..nodes.len() {
        let node = &nodes[i];
        // Where no identifier can stand there is nothing to gather, and no place is worked out.
        if !node.may_hold_names() {
            continue;
        }
        let env = views.seen(places.view(i));
        gather(alloc, stage, node, places.at(i, node), env, tables)?;
    }
    Ok(())
}

// Adds the table of one scope more, which takes no name yet, and gives the number of the scope.
fn add_table(alloc: Global, tables: &mut Vec<ScopeNames>) -> Result<usize, AllocError>
    ensures number { IfOk result (λ number. number ≡ length tables.old.items) }
    ensures size { OnOk result (length tables.new.items ≡ length tables.old.items + 1) }
    ensures alike { OnOk result (TakeAlike tables.old.items tables.new.items) }
{
    let number = tables.len();
    tables.push(ScopeNames::new(alloc))?;
    Ok(number)
}

// The members that a node has, if the stage looks for them: those of an enum.
fn members<'a>(stage: Stage, kind: Kind, fields: &'a [Node]) -> &'a [Node]
    ensures { result.now ≡ members_sought stage.entry kind fields.now }
{
    match (stage, kind) {
        (Stage::Bind, Kind::TsEnumDecl) => match fields.get(ts_enum_decl::MEMBERS) {
            Some(Node::List(items)) => items.as_slice(),
            _ => &[],
        },
        _ => &[],
    }
}

// Adds the names of those members to the table of a scope.
fn add_members(
    alloc: Global,
    members: &[Node],
    number: usize,
    tables: &mut Vec<ScopeNames>,
) -> Result<(), AllocError>
    requires { number < length tables.old.items }
    ensures size { OnOk result (length tables.new.items ≡ length tables.old.items) }
    ensures tables { OnOk result (Gains tables.old.items tables.new.items (HasMembers number members.now (length members.now))) }
{
    for i in 0..members.len() {
        add_member(alloc, &members[i], number, tables)?;
    }
    Ok(())
}

// Adds the name of one of them, if it has one that is no string.
fn add_member(
    alloc: Global,
    member: &Node,
    number: usize,
    tables: &mut Vec<ScopeNames>,
) -> Result<(), AllocError>
    requires { number < length tables.old.items }
    ensures size { OnOk result (length tables.new.items ≡ length tables.old.items) }
    ensures tables { OnOk result (Gains tables.old.items tables.new.items (IsMember number member.now)) }
{
    match member_name(member) {
        Some(name) => { add(alloc, tables, number, name, Ways::of_member()) }
        None => Ok(()),
    }
}

// The name of a member of an enum, if it has one that is no string.
fn member_name(member: &Node) -> Option<&str>
    ensures { option_map (λ name. name.now) result ≡ member_name_of member.now }
{
    match member {
        Node::Tree(Kind::TsEnumMember, fields) => name_of_key(
            fields.as_slice(),
            ts_enum_member::ID,
        ),
        _ => None,
    }
}

fn name_of_key(fields: &[Node], index: usize) -> Option<&str>
    ensures { option_map (λ name. name.now) result ≡ key_name (slice_get fields.now index) }
{
    match fields.get(index) {
        Some(Node::Tree(Kind::IdentName, parts)) => text_of(parts.as_slice(), ident_name::SYM),
        _ => None,
    }
}

fn text_of(parts: &[Node], index: usize) -> Option<&str>
    ensures { option_map (λ text. text.now) result ≡ text_of_field (slice_get parts.now index) }
{
    match parts.get(index) {
        Some(Node::Text(text)) => Some(text.as_str()),
        _ => None,
    }
}

// Adds the name of an identifier that no pass has marked to the table of the scope that the stage gives it to.
fn gather_identifier(
    alloc: Global,
    stage: Stage,
    ident: &Ident,
    stance: Stance,
    env: &Env,
    tables: &mut Vec<ScopeNames>,
) -> Result<(), AllocError>
    requires { AreBelow (length tables.old.items) (layers env.now) }
    ensures size { OnOk result (length tables.new.items ≡ length tables.old.items) }
    ensures tables { OnOk result (Gains tables.old.items tables.new.items (TakesIdentifier stage.entry (layers env.now) stance.standing stance.kind ident.now)) }
{
    let Stance { standing, kind } = stance;
    // What the stage does not look for is told by where it stands, with no look at its own memory.
    if !seeks(stage, standing) {
        return Ok(());
    }
    if !ident.ctxt.marks().is_empty() {
        return Ok(());
    }
    let name = ident.sym.as_str();
    match target(stage, standing, name, env) {
        Some(number) => {
            let ways = Ways::by(standing, names_type(standing, kind));
            add(alloc, tables, number, name, ways)
        }
        None => Ok(()),
    }
}

// Whether an identifier of that kind that stands so declares its name as a type.
fn names_type(standing: Standing, kind: Kind) -> bool
    ensures { result ≡ declares_type standing kind }
{
    match standing {
        Standing::TypeName | Standing::Import => true,
        Standing::Lexical => matches!(kind, Kind::Ident),
        _ => false,
    }
}

// As what a name goes to its scope: that of a type alone as a lexical one.
fn as_value(standing: Standing) -> Standing
    ensures { result ≡ stands_as_value standing }
{
    match standing {
        Standing::TypeName => Standing::Lexical,
        _ => standing,
    }
}

// Whether the stage looks for names that stand so.
fn seeks(stage: Stage, standing: Standing) -> bool
    ensures { result ≡ is_sought stage.entry standing }
{
    match stage {
        Stage::Bind => is_binding(standing) || matches!(standing, Standing::TypeName),
        Stage::Settle(_) => matches!(standing, Standing::SloppyFunction | Standing::Variable),
    }
}

fn add(
    alloc: Global,
    tables: &mut Vec<ScopeNames>,
    number: usize,
    name: &str,
    ways: Ways,
) -> Result<(), AllocError>
    requires { number < length tables.old.items }
    ensures size { OnOk result (length tables.new.items ≡ length tables.old.items) }
    ensures tables { OnOk result (Gains tables.old.items tables.new.items (IsAdded number ways name.now)) }
{
    match tables.get_mut(number) {
        Some(names) => { names.insert(alloc, name, ways) }
        None => Ok(()),
    }
}

// The scope that the stage gives a name to that stands so.
fn target(stage: Stage, standing: Standing, name: &str, env: &Env) -> Option<usize>
    ensures { result ≡ target_in stage.entry standing name.now (layers env.now) }
{
    match stage {
        Stage::Bind => taker(env, as_value(standing)),
        Stage::Settle(bound) => match standing {
            Standing::SloppyFunction => {
                if hoists(env, &bound, name) {
                    variable_scope(env)
                } else {
                    None
                }
            }
            Standing::Variable => { uncaught(variable_scope(env), meets(env, &bound, name)) }
            _ => None,
        },
    }
}

// The scope that takes a variable, if it is the first that the variable meets on its way.
fn uncaught(scope: Option<usize>, met: Option<usize>) -> Option<usize>
    ensures { result ≡ same_number scope met }
{
    match (scope, met) {
        (Some(scope), Some(met)) if met == scope => Some(scope),
        _ => None,
    }
}
