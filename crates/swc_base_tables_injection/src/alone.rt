//! Statements that are resolved in a program of their own.
ghost use Rattle.std.specs.Prelude.{◌≡◌, ℕ, ◌+◌, ◌-◌, ◌<◌, ◌≤◌, Some, ◌∷◌, IfOk, IfErr, IsErrOf, codes, drop};
ghost use Rattle.swc_tree_marks.specs.Globals.{greatest, with_fresh_marks};
ghost use Rattle.swc_tree_node.specs.declared.slot.Slot.{Slot as Slot'};
ghost use Rattle.swc_tree_node.specs.declared.node.Node.{Tree, out-Node};
ghost use Rattle.swc_tree_node.specs.Fits.{AllFit};
ghost use Rattle.swc_tree_scoping.specs.Places.{items_in, opened, program_place};
ghost use Rattle.swc_tree_scoping.specs.Scopes.{scope_count};
ghost use Rattle.swc_tree_scoping.specs.declared.places.Scope.TheVariants as scope;
ghost use Rattle.swc_base_resolver_program.specs.Marked.{IsRefusal, MarksOk, OnlyContexts};
ghost use Rattle.swc_base_tables_injection.specs.Brought.{string as is_string};
ghost use Rattle.swc_base_tables_injection.specs.Alone.{IsOfStrictness, MarkedAlone, ResolvedAlone, all_bodies, alone as is_alone, is_strict_program as is_strictly, opening as is_opening, statements_of as are_statements_of};

use crate::brought::{string, tree};
use std::alloc::Global;
use swc_base_resolver_program::resolve_program;
use swc_tree_items::{Items, Text};
use swc_tree_marks::{DUMMY_SP, Globals, Mark, NoMemory, PassError};
use swc_tree_node::fields::module_;
use swc_tree_node::{Kind, Node};
use swc_tree_scoping::{PROGRAM_PLACE, places_of_fields};

/// Whether what stands in a program's body is strict code.
pub fn is_strict_program(program: &Node) -> bool
    ensures { result ≡ is_strictly program.now }
{
    match program {
        Node::Tree(kind, fields) => {
            let body = fields.get(module_::BODY).unwrap_or(program);
            let places = places_of_fields(PROGRAM_PLACE, *kind, fields.as_slice());
            places.at(module_::BODY, body).strict
        }
        _ => false,
    }
}

// `"use strict"`
fn use_strict(alloc: Global) -> Result<Node, NoMemory>
    ensures { IfOk result (λ node. node ≡ is_string (codes "use strict")) }
{
    let text = Text::new(alloc, "use strict")?;
    string(alloc, text)
}

// The statement by which a script is strict, or by which it is not.
fn opening(alloc: Global, strict: bool) -> Result<Node, NoMemory>
    ensures { IfOk result (λ node. node ≡ is_opening strict) }
{
    if strict {
        let string = use_strict(alloc)?;
        return tree(alloc, Kind::ExprStmt, [Node::Span(DUMMY_SP), string]);
    }
    tree(alloc, Kind::EmptyStmt, [Node::Span(DUMMY_SP)])
}

// A statement, and behind it all bodies.
fn with_bodies(
    alloc: Global,
    first: Node,
    bodies: Items<Items<Node>>,
) -> Result<Items<Node>, NoMemory>
    ensures { IfOk result (λ stmts. stmts ≡ first ∷ all_bodies bodies) }
{
    let mut stmts = Items::new(alloc);
    stmts.push(first)?;
    for body in bodies.into_vec() {
        stmts.append(body)?;
    }
    Ok(stmts)
}

// The bodies in a program of that kind and strictness.
fn alone(
    alloc: Global,
    kind: Kind,
    strict: bool,
    bodies: Items<Items<Node>>,
) -> Result<Node, NoMemory>
    ensures alone { IfOk result (λ node. node ≡ is_alone kind strict (all_bodies bodies)) }
    ensures strictness { IfOk result (IsOfStrictness kind strict) }
{
    let first = opening(alloc, strict)?;
    let stmts = with_bodies(alloc, first, bodies)?;
    let fields = [Node::Span(DUMMY_SP), Node::List(stmts), Node::Absent];
    tree(alloc, kind, fields)
}

// The statements but for the first.
fn without_first(mut stmts: Items<Node>) -> Items<Node>
    ensures { result ≡ drop 1 stmts }
{
    if stmts.len() > 0 {
        let _first = stmts.remove(0);
    }
    stmts
}

// The items of a list but for the first.
fn items_of(alloc: Global, body: Node) -> Items<Node>
    ensures { result ≡ drop 1 (items_in (out-Node body)) }
{
    match body {
        Node::List(stmts) => without_first(stmts),
        _ => Items::new(alloc),
    }
}

fn statements_in(alloc: Global, kind: Kind, mut fields: Items<Node>) -> Items<Node>
    ensures { result ≡ are_statements_of (Tree kind fields) }
{
    if fields.len() <= module_::BODY {
        return Items::new(alloc);
    }
    let body = fields.replace(module_::BODY, Node::Absent);
    items_of(alloc, body)
}

// The statements of a program but for the first.
fn statements_of(alloc: Global, program: Node) -> Items<Node>
    ensures { result ≡ are_statements_of program }
{
    match program {
        Node::Tree(kind, fields) => statements_in(alloc, kind, fields),
        _ => Items::new(alloc),
    }
}

/// The bodies as one list, resolved in a program of a kind and strictness.
///
/// # Errors
///
/// Those of the resolver.
pub fn resolve_alone(
    alloc: Global,
    globals: &mut Globals,
    helper: Mark,
    global: Mark,
    kind: Kind,
    strict: bool,
    bodies: Items<Items<Node>>,
) -> Result<Items<Node>, PassError>
    ensures resolved { opened program_place (is_alone kind strict (all_bodies bodies)) ≡ Some scope.Program → MarksOk globals.old global helper → IfOk result (ResolvedAlone helper global globals.old globals.new kind strict (all_bodies bodies)) }
    ensures contexts { IfOk result (MarkedAlone kind strict (all_bodies bodies)) }
    ensures fits { (s : Slot') → AllFit s (all_bodies bodies) → IfOk result (AllFit s) }
    ensures table { (fresh : ℕ) × (fresh ≤ scope_count program_place (is_alone kind strict (all_bodies bodies)) - 1) × (globals.new ≡ with_fresh_marks globals.old helper fresh) }
    ensures gained { IfOk result (λ _. globals.new ≡ with_fresh_marks globals.old helper (scope_count program_place (is_alone kind strict (all_bodies bodies)) - 1)) }
    ensures refusal { IfErr result IsRefusal }
    ensures spent { IsErrOf result PassError.MarksSpent → 4294967295 < greatest globals.old + (scope_count program_place (is_alone kind strict (all_bodies bodies)) - 1) }
{
    let program = alone(alloc, kind, strict, bodies)?;
    let answer = resolve_program(alloc, globals, global, helper, program)?;
    Ok(statements_of(alloc, answer))
}
