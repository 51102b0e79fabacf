//! The last walk: writes the context of each identifier.
ghost use Rattle.std.specs.Prelude.{◌≡◌, ℕ, ◌+◌, ◌≤◌, true, false, List, [], ◌∷◌, length, IfOk, OnOk, MatchOption};
ghost use Rattle.swc_tree_node.specs.declared.node.Node.{Node as Node', Tree};
ghost use Rattle.swc_tree_node.specs.declared.node.Node.TheOpen.{Node-F};
ghost use Rattle.swc_tree_scoping.specs.Below.{places_of, view_of};
ghost use Rattle.swc_tree_scoping.specs.Folds.{each_in};
ghost use Rattle.swc_tree_scoping.specs.Places.{program_place};
ghost use Rattle.swc_tree_scoping.specs.Scopes.{scope_count, total};
ghost use Rattle.swc_tree_scoping.specs.Resolved.{is_global_value as names_global_value, is_script as is_script_node, remarked};
ghost use Rattle.swc_base_resolver_program.specs.Lookup.{layers};
ghost use Rattle.swc_tree_spaces.specs.Spaces.{exports_in, spaces};
ghost use Rattle.swc_base_resolver_program.specs.Walks.{context_of, exports_at, fresh_context, is_marked, mark_at as mark_by, marking_in, meant_by, own_number, sees, walked, written};

use crate::env::{Env, Inside, Views, taker};
use crate::lookup::{Declarations, function_owner, meaning, type_meaning, variable_owner};
use std::alloc::AllocError;
use swc_tree_items::Items;
use swc_tree_marks::{Ident, Mark};
use swc_tree_node::fields::export_default_expr;
use swc_tree_node::{Kind, Node};
use swc_tree_scoping::{
    PROGRAM_PLACE, Place, PlacesBelow, Standing, places_of_fields, places_of_items,
};

/// The marks of the scopes and what they declare, the scopes from the front; the mark of free names; and whether the
/// program is a script.
#[derive(Clone, Copy)]
pub struct Answers<'a> {
    pub marks: &'a [Mark],
    pub declarations: Declarations<'a>,
    pub unresolved: Mark,
    pub is_script: bool,
}

// What stands round a node: the open scopes, and whether what stands there is exported by its name.
#[derive(Clone, Copy)]
struct Around<'a> {
    env: &'a Env<'a>,
    exported: bool,
}

// Which children of a node are exported by their names: each or none, or one alone.
#[derive(Clone, Copy)]
enum Exports {
    Each(bool),
    Only(usize),
}

impl Exports {
    // Whether the child at an index is.
    fn at(self, index: usize) -> bool
        ensures { result ≡ exports_at self index }
    {
        match self {
            Exports::Each(exported) => exported,
            Exports::Only(number) => index == number,
        }
    }
}

// Which fields of a tree of that kind are exported, where the tree is or is not: the parts of an export list, and all of a default
// export.
fn exports_of(kind: Kind, exported: bool) -> Exports
    ensures { (ts : List Node') (i : ℕ) → exports_at result i ≡ exports_in exported (Node-F.Tree kind ts) i }
{
    match kind {
        Kind::ExportDefaultExpr => Exports::Only(export_default_expr::EXPR),
        Kind::NamedExport => Exports::Each(true),
        Kind::ExportNamedSpecifier => Exports::Each(exported),
        _ => Exports::Each(false),
    }
}

/// The program with the context of each identifier that had none.
pub fn write_contexts(program: Node, answers: &Answers) -> Result<Node, AllocError>
    requires { scope_count program_place program ≤ length answers.now.marks.now }
    ensures { IfOk result (λ answer. answer ≡ remarked (written (marking_in answers.now) false [] 0 program_place program) program) }
{
    let mut program = program;
    let mut next = 0;
    let around = Around {
        env: &Env::Top,
        exported: false,
    };
    resolve(&mut program, PROGRAM_PLACE, answers, around, &mut next)?;
    Ok(program)
}

// Writes the context of each identifier of a node that had none; `next` is how many scopes begin before it.
#[cycle(resolve)]
fn resolve(
    node: &mut Node,
    place: Place,
    answers: &Answers,
    around: Around,
    next: &mut usize,
) -> Result<(), AllocError>
    requires { next.old + scope_count place node.old ≤ length answers.now.marks.now }
    ensures answer { OnOk result (node.new ≡ remarked (written (marking_in answers.now) around.entry.exported (layers around.entry.env.now) next.old place node.old) node.old) }
    ensures next { OnOk result (next.new ≡ next.old + scope_count place node.old) }
{
    if let Node::Identifier(_, ident) = node {
        return mark_identifier(ident.get_mut(), place.standing, &*answers, around);
    }
    let kind = node.kind();
    let Some(children) = node.children_mut() else {
        return Ok(());
    };
    match kind {
        Some(kind) => resolve_fields(kind, children, place, &*answers, around, next),
        None => {
            let places = places_of_items(place);
            let exports = Exports::Each(around.exported);
            let seen = Views::Plain(around.env);
            resolve_children(children, places, &*answers, seen, exports, next)
        }
    }
}

// The same for the fields of a tree of that kind.
#[cycle(resolve)]
fn resolve_fields(
    kind: Kind,
    fields: &mut Items<Node>,
    place: Place,
    answers: &Answers,
    around: Around,
    next: &mut usize,
) -> Result<(), AllocError>
    requires { next.old + scope_count place (Tree kind fields.old) ≤ length answers.now.marks.now }
    ensures answer { OnOk result (Tree kind fields.new ≡ remarked (written (marking_in answers.now) around.entry.exported (layers around.entry.env.now) next.old place (Tree kind fields.old)) (Tree kind fields.old)) }
    ensures next { OnOk result (next.new ≡ next.old + scope_count place (Tree kind fields.old)) }
{
    let places = places_of_fields(place, kind, fields.as_slice());
    let exports = exports_of(kind, around.exported);
    match places.opened() {
        Some(scope) => {
            prove!(*next < answers.marks.len());
            let inside = Inside::new(scope, *next, around.env);
            *next += 1;
            let views = Views::Opened(&inside);
            resolve_children(fields, places, &*answers, views, exports, next)?;
            Ok(())
        }
        None => {
            let views = Views::Plain(around.env);
            resolve_children(fields, places, &*answers, views, exports, next)?;
            Ok(())
        }
    }
}

#[cycle(resolve)]
fn resolve_children(
    nodes: &mut Items<Node>,
    places: PlacesBelow,
    answers: &Answers,
    views: Views,
    exports: Exports,
    next: &mut usize,
) -> Result<(), AllocError>
    requires { next.old + total (each_in scope_count (places_of places nodes.old) nodes.old) ≤ length answers.now.marks.now }
    ensures answer { OnOk result (nodes.new ≡ walked (marking_in answers.now) (λ i. exports_at exports i) (λ i. sees views.entry (view_of places i)) next.old (places_of places nodes.old) nodes.old) }
    ensures next { OnOk result (next.new ≡ next.old + total (each_in scope_count (places_of places nodes.old) nodes.old)) }
{
    for i in 0..nodes.len() {
        let node = &nodes.as_slice()[i];
        // Where no identifier can stand there is nothing to mark, and no place is worked out.
        if !node.may_hold_names() {
            continue;
        }
        let place = places.at(i, node);
        let env = views.seen(places.view(i));
        let exported = exports.at(i);
        let around = Around { env, exported };
        resolve(nodes.item_mut(i), place, &*answers, around, next)?;
    }
    Ok(())
}

// Writes the context of an identifier that has none.
fn mark_identifier(
    ident: &mut Ident,
    standing: Standing,
    answers: &Answers,
    around: Around,
) -> Result<(), AllocError>
    ensures { OnOk result (ident.new ≡ record ident.old { ctxt = context_of (marking_in answers.now) around.entry.exported standing (layers around.entry.env.now) ident.old }) }
{
    // What has no mark is told by where it stands, with no look at its own memory.
    if !gets_mark(standing) {
        return Ok(());
    }
    if !ident.ctxt.marks().is_empty() {
        return Ok(());
    }
    match mark_of(standing, ident.sym.as_str(), &*answers, around) {
        Some(mark) => {
            ident.ctxt.apply_mark(mark)?;
            Ok(())
        }
        None => Ok(()),
    }
}

// Whether an identifier that stands so is to have a mark.
fn gets_mark(standing: Standing) -> bool
    ensures { result ≡ is_marked standing }
{
    !matches!(
        standing,
        Standing::Plain
            | Standing::Label
            | Standing::Imported
            | Standing::Exported
            | Standing::Branch
            | Standing::DefaultExport
    )
}

// The mark that an identifier is to have, if it is to have one.
fn mark_of(standing: Standing, name: &str, answers: &Answers, around: Around) -> Option<Mark>
    ensures { let context = fresh_context (marking_in answers.now) around.entry.exported standing name.now (layers around.entry.env.now) in MatchOption result (context ≡ []) (λ mark. context ≡ mark ∷ []) }
{
    let env = around.env;
    match standing {
        Standing::Reference | Standing::Body => {
            Some(mark_at(answers, meant(name, answers, around)))
        }
        Standing::TypeReference => Some(mark_at(answers, meant_as_type(name, answers, env))),
        Standing::TypeName => Some(mark_at(answers, taker(env, Standing::Lexical))),
        Standing::Variable => Some(mark_at(
            answers,
            variable_owner(env, &answers.declarations, name),
        )),
        Standing::SloppyFunction => Some(mark_at(
            answers,
            function_owner(env, &answers.declarations, name),
        )),
        Standing::Plain
        | Standing::Label
        | Standing::Imported
        | Standing::Exported
        | Standing::Branch
        | Standing::DefaultExport => None,
        _ => Some(mark_at(answers, taker(env, standing))),
    }
}

// The number of the scope that a reference means: as a value, and what is exported, if no scope declares it so, as a type.
fn meant(name: &str, answers: &Answers, around: Around) -> Option<usize>
    ensures { result ≡ meant_by (marking_in answers.now) (spaces Standing.Reference around.entry.exported) name.now (layers around.entry.env.now) }
{
    let env = around.env;
    match meaning(env, &answers.declarations, name) {
        Some(scope) => own_meaning(answers, name, Some(scope)),
        None => {
            if around.exported {
                type_meaning(env, &answers.declarations.bound, name)
            } else {
                None
            }
        }
    }
}

// The number of the scope that a type reference means: as a type, and if no scope declares it so, as a value.
fn meant_as_type(name: &str, answers: &Answers, env: &Env) -> Option<usize>
    ensures { result ≡ meant_by (marking_in answers.now) (spaces Standing.TypeReference false) name.now (layers env.now) }
{
    match type_meaning(env, &answers.declarations.bound, name) {
        Some(scope) => Some(scope),
        None => own_meaning(answers, name, meaning(env, &answers.declarations, name)),
    }
}

// What is meant in a script, where `undefined`, `NaN` and `Infinity` are free though the program declares them.
fn own_meaning(answers: &Answers, name: &str, scope: Option<usize>) -> Option<usize>
    ensures { result ≡ own_number (marking_in answers.now) name.now scope }
{
    match scope {
        Some(0) if answers.is_script && is_global_value(name) => None,
        _ => scope,
    }
}

fn is_global_value(name: &str) -> bool
    ensures { result ≡ names_global_value name.now }
{
    name == "undefined" || name == "NaN" || name == "Infinity"
}

// The mark of a scope; that of free names where there is none.
fn mark_at(answers: &Answers, scope: Option<usize>) -> Mark
    ensures { result ≡ mark_by (marking_in answers.now) scope }
{
    match scope {
        Some(number) => match answers.marks.get(number) {
            Some(mark) => *mark,
            None => answers.unresolved,
        },
        None => answers.unresolved,
    }
}

/// Whether a program is a script.
pub fn is_script(program: &Node) -> bool
    ensures { result ≡ is_script_node program.now }
{
    matches!(program, Node::Tree(Kind::Script, _))
}
