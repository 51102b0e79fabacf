//! Texts as pages.
ghost use Rattle.std.specs.Prelude.{◌≡◌, Some, MatchResult};
ghost use Rattle.swc_tree_scoping.specs.declared.places.Scope.TheVariants as scope;
ghost use Rattle.swc_tree_scoping.specs.Places.{opened, program_place};
ghost use Rattle.text_source.specs.Texts.{IsTextOf, SpansAreOf};
ghost use Rattle.mucwathi_looks.specs.Looks.{IsLookRefusal, IsUnlooked};
ghost use Rattle.mucwathi_looks.specs.Shown.{IsShown, ShowsNames, ShowsText};
ghost use Rattle.mucwathi_looks.specs.Unshown.{IsUnshown, chain_order};

use crate::list_changes;
use crate::variables::uses_of;
use mucwathi_lists::Change;
use mucwathi_order::{Command, Goal, Memory, Order, RunFault, Settings, Style};
use mucwathi_page::page;
use mucwathi_passes::{own_marks, resolve};
use std::alloc::Global;
use swc_tree_marks::PassError;
use swc_tree_node::Node;
use swc_tree_walk::sites;
use text_source::read_text;

// A text, and what it is called.
#[derive(Clone, Copy)]
struct Source<'a> {
    name: &'a str,
    text: &'a [u8],
}

// What a chain gives anew.
fn chain_of(goal: Goal, depth: u32) -> Order
    ensures { result ≡ chain_order goal depth }
{
    Order {
        command: Command::Chain,
        goal,
        depth,
        settings: Settings {
            keep_class_names: false,
            ignore_eval: false,
            keep_top: false,
        },
        style: Style::Kept,
        memory: Memory::GivenBack,
    }
}

fn draw(
    alloc: Global,
    of: Source<'_>,
    changes: &[Change],
    program: Node,
) -> Result<Vec<u8>, PassError>
    requires { opened program_place program ≡ Some scope.Program }
    ensures { MatchResult result (λ out. ShowsNames program changes.now of.entry.name.now of.entry.text.now out.items) (IsLookRefusal program) }
{
    let mut globals = own_marks(alloc)?;
    let resolved = resolve(alloc, &mut globals, program)?;
    let found = sites(alloc, &resolved)?;
    let uses = uses_of(alloc, found.as_slice(), changes)?;
    let out = page(alloc, of.name, of.text, uses.as_slice())?;
    Ok(out)
}

fn draw_source(
    alloc: Global,
    goal: Goal,
    of: Source<'_>,
    changes: &[Change],
    program: Node,
) -> Result<Vec<u8>, RunFault>
    requires read { IsTextOf goal program of.text.now }
    requires stands { SpansAreOf goal program of.text.now }
    ensures { MatchResult result (λ out. ShowsText goal changes.now of.entry.name.now of.entry.text.now out.items) (IsUnlooked goal of.entry.text.now) }
{
    match draw(alloc, of, changes, program) {
        Ok(out) => Ok(out),
        Err(error) => Err(RunFault::Refused(error)),
    }
}

// A page with a text, of which is known what a chain gives anew.
fn show(
    alloc: Global,
    goal: Goal,
    depth: u32,
    of: Source<'_>,
    changes: &[Change],
) -> Result<Vec<u8>, RunFault>
    ensures { MatchResult result (λ out. ShowsText goal changes.now of.entry.name.now of.entry.text.now out.items) (IsUnlooked goal of.entry.text.now) }
{
    match read_text(alloc, goal, depth, of.text) {
        Ok(program) => draw_source(alloc, goal, of, changes, program),
        Err(fault) => Err(RunFault::of_text(fault)),
    }
}

/// A page with a text, each variable of which has a colour of its own: between its tags, in `pre`, it has the text. Who points at a name sees its uses, and what a chain calls it: its tag has the number
/// of its variable, the mark of its scope, and the new name.
///
/// # Errors
///
/// `Text` where the text is not read; else those of a chain of it (`rewrite_text`).
pub fn show_text(
    alloc: Global,
    goal: Goal,
    depth: u32,
    name: &str,
    text: &[u8],
) -> Result<Vec<u8>, RunFault>
    ensures { MatchResult result (λ out. IsShown goal depth name.now text.now out.items) (IsUnshown goal depth text.now) }
{
    let order = chain_of(goal, depth);
    match list_changes(alloc, &order, text) {
        Ok(changes) => show(
            alloc,
            goal,
            depth,
            Source { name, text },
            changes.as_slice(),
        ),
        Err(fault) => Err(fault),
    }
}
