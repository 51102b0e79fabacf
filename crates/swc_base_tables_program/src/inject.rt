//! Bringing helpers into a program.
ghost use Rattle.std.specs.Prelude.{◌≡◌, ℕ, ◌+◌, ◌<◌, ◌≤◌, Some, None, IfOk, IfErr, IsErrOf, true, false};
ghost use Rattle.std.specs.List.{All};
ghost use Rattle.swc_tree_marks.specs.Globals.{greatest, with_fresh_marks};
ghost use Rattle.swc_tree_node.specs.declared.kind.Kind.{Kind as Kind'};
ghost use Rattle.swc_tree_node.specs.declared.kind.Class.TheVariants as class;
ghost use Rattle.swc_tree_node.specs.declared.slot.Content.TheVariants as content;
ghost use Rattle.swc_tree_node.specs.declared.slot.Slot.{Slot as Slot'};
ghost use Rattle.swc_tree_node.specs.declared.slot.Slot.TheVariants as slot;
ghost use Rattle.swc_tree_node.specs.Fits.{AllFit, Fits};
ghost use Rattle.swc_base_resolver_program.specs.Marked.{IsRefusal, MarksOk};
ghost use Rattle.swc_base_tables_injection.specs.Alone.{IsInjected, MarkedAlone, ResolvedAlone, is_strict_program as is_strictly};
ghost use Rattle.swc_base_tables_injection.specs.Bodies.{program_kind as is_program_kind};
ghost use Rattle.swc_base_tables_injection.specs.Injected.{IsBroughtInto};
ghost use Rattle.swc_base_tables_program.specs.Given.{bodies_in, in_order as are_in_order, names_in, scopes_given};

use crate::bodies::Bodies;
use std::alloc::Global;
use swc_base_tables_helpers::{Helper, Helpers};
use swc_base_tables_injection::{bring_in, inject_bodies};
use swc_tree_items::{Items, Text};
use swc_tree_marks::{Globals, Mark, NoMemory, PassError};
use swc_tree_node::Node;

// The helpers that a program was given, in the order of the table.
fn in_order(alloc: Global, helpers: &Helpers) -> Result<Items<Helper>, NoMemory>
    ensures { IfOk result (λ list. list ≡ are_in_order helpers.now.enabled) }
{
    let mut list = Items::new(alloc);
    for helper in Helper::all() {
        if helpers.is_enabled(helper) {
            list.push(helper)?;
        }
    }
    Ok(list)
}

// Their names.
fn names_of(alloc: Global, helpers: &Helpers) -> Result<Items<Text>, NoMemory>
    ensures { IfOk result (λ names. names ≡ names_in helpers.now.enabled) }
{
    let list = in_order(alloc, helpers)?;
    let mut names = Items::new(alloc);
    for helper in list.as_slice() {
        let name = Text::new(alloc, helper.name())?;
        names.push(name)?;
    }
    Ok(names)
}

// Their bodies.
fn bodies_of(
    alloc: Global,
    helpers: &Helpers,
    mut bodies: Bodies,
) -> Result<Items<Items<Node>>, NoMemory>
    ensures { IfOk result (λ list. list ≡ bodies_in bodies helpers.now.enabled) }
{
    let helpers = in_order(alloc, helpers)?;
    let mut list = Items::new(alloc);
    for helper in helpers.as_slice() {
        let body = bodies.take(alloc, *helper);
        list.push(body)?;
    }
    Ok(list)
}

/// The program with the helpers that it was given, behind its leading string statements and in the order of the table.
/// Taken from a package, each comes by `bring_in`; written out, their bodies come by `inject_bodies`. The bodies are used up.
///
/// # Errors
///
/// Those of `inject_bodies`; from a package only `NoMemory`, and the table of marks then stays.
pub fn inject_helpers(
    alloc: Global,
    globals: &mut Globals,
    global: Mark,
    helpers: &Helpers,
    bodies: Bodies,
    program: Node,
) -> Result<Node, PassError>
    ensures outside { helpers.now.external ≡ true → IfOk result (IsBroughtInto helpers.now.mark global (names_in helpers.now.enabled) program) }
    ensures inside { helpers.now.external ≡ false → (k : Kind') → is_program_kind program ≡ Some k → MarksOk globals.old global helpers.now.mark → IfOk result (IsInjected (ResolvedAlone helpers.now.mark global globals.old globals.new k (is_strictly program)) (bodies_in bodies helpers.now.enabled) program) }
    ensures contexts { helpers.now.external ≡ false → (k : Kind') → is_program_kind program ≡ Some k → IfOk result (IsInjected (MarkedAlone k (is_strictly program)) (bodies_in bodies helpers.now.enabled) program) }
    ensures other { is_program_kind program ≡ None → IfOk result (λ answer. answer ≡ program) }
    ensures fits { (s : Slot') → All (λ body. AllFit (slot.One (content.Node class.Stmt)) body) (bodies_in bodies helpers.now.enabled) → Fits program s → IfOk result (λ answer. Fits answer s) }
    ensures table { (fresh : ℕ) × (fresh ≤ scopes_given helpers.now bodies program) × (globals.new ≡ with_fresh_marks globals.old helpers.now.mark fresh) }
    ensures gained { IfOk result (λ _. globals.new ≡ with_fresh_marks globals.old helpers.now.mark (scopes_given helpers.now bodies program)) }
    ensures refusal { IfErr result IsRefusal }
    ensures spent { IsErrOf result PassError.MarksSpent → 4294967295 < greatest globals.old + scopes_given helpers.now bodies program }
{
    if helpers.external() {
        let names = names_of(alloc, helpers)?;
        let answer = bring_in(alloc, helpers.mark(), global, names.as_slice(), program)?;
        return Ok(answer);
    }
    let all = bodies_of(alloc, helpers, bodies)?;
    inject_bodies(alloc, globals, helpers.mark(), global, all, program)
}
