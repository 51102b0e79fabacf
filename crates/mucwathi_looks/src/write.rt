//! Programs written as texts, with the marks of their names.
ghost use Rattle.std.specs.Prelude.{◌≡◌, Some, IsTrue, MatchResult, map};
ghost use Rattle.swc_tree_walk.specs.Sites.{site_of};
ghost use Rattle.mucwathi_given.specs.Given.{IsMade, IsReady};
ghost use Rattle.mucwathi_commands.specs.Faults.{IsWriteFault};
ghost use Rattle.mucwathi_looks.specs.Refused.{IsWantOfMemory, IsUnmadeBy, IsUnmadeOf, IsUnrewrittenMarked};
ghost use Rattle.mucwathi_looks.specs.Answered.{AreWrittenBehind, IsEditedFor, IsMarkedFor, IsPrinted, IsRemade, IsRewrittenMarked, IsWrittenFor, name_of, with_settings as settings_in};

use crate::given::give_marked;
use crate::{any_is_marked, signs_at};
use mucwathi_commands::{edit, print};
use mucwathi_given::{Envelope, make_given};
use mucwathi_order::{Goal, Order, RunFault, Settings};
use mucwathi_signs::put_signs;
use std::alloc::Global;
use swc_tree_marks::{Ident, PassError};
use swc_tree_node::Node;
use swc_tree_walk::{Site, sites};
use text_printer::Layout;
use text_source::{TextFault, read_text};

fn has_text_of(one: &Ident, other: &Ident) -> bool
    ensures { IsTrue result → one.now.sym ≡ other.now.sym }
{
    one.sym == other.sym
}

// Whether names have the texts of others, one by one.
fn have_same_texts(names: &[Site<'_>], places: &[Site<'_>]) -> bool
    ensures { IsTrue result → map name_of (map site_of names.now) ≡ map name_of (map site_of places.now) }
{
    if names.len() != places.len() {
        return false;
    }
    'sites: for i in 0..names.len() {
        if !has_text_of(names[i].ident, places[i].ident) {
            return false;
        }
    }
    true
}

// The marks of names, written behind the same names of the program that a text is read as.
fn mark_behind(
    alloc: Global,
    plain: &[u8],
    names: &[Site<'_>],
    again: &Node,
) -> Result<Vec<u8>, RunFault>
    ensures { MatchResult result (λ out. AreWrittenBehind (map site_of names.now) again.now plain.now out.items) IsWriteFault }
{
    let found = sites(alloc, again)?;
    let places = found.as_slice();
    if !have_same_texts(names, places) {
        return Err(RunFault::NotWritten);
    }
    let signs = signs_at(alloc, names, places)?;
    let out = put_signs(alloc, plain, signs.as_slice())?;
    Ok(out)
}

// A text that was written for a tree, with the marks of the tree's names: the text is read again, to see where they stand.
fn with_marks(
    alloc: Global,
    goal: Goal,
    depth: u32,
    tree: &Node,
    plain: Vec<u8>,
) -> Result<Vec<u8>, RunFault>
    ensures { MatchResult result (λ out. IsMarkedFor goal tree.now plain.items out.items) IsWriteFault }
{
    let found = sites(alloc, tree)?;
    let names = found.as_slice();
    if !any_is_marked(names) {
        return Ok(plain);
    }
    match read_text(alloc, goal, depth, plain.as_slice()) {
        Ok(again) => mark_behind(alloc, plain.as_slice(), names, &again),
        Err(TextFault::NoMemory) => Err(RunFault::Refused(PassError::NoMemory)),
        Err(_) => Err(RunFault::NotWritten),
    }
}

/// A program written anew, with marks behind those of its names that have some.
///
/// # Errors
///
/// `NotWritten` where it has no text, or none that is read again as it is; `Refused` where memory is.
pub fn print_given(
    alloc: Global,
    goal: Goal,
    depth: u32,
    layout: Layout,
    tree: &Node,
) -> Result<Vec<u8>, RunFault>
    ensures { MatchResult result (λ out. IsPrinted goal tree.now out.items) IsWriteFault }
{
    let plain = print(alloc, goal, layout, tree)?;
    with_marks(alloc, goal, depth, tree, plain)
}

// An answer written with the layout of the text of its source.
fn edit_given(
    alloc: Global,
    order: &Order,
    text: &[u8],
    source: &Node,
    answer: &Node,
) -> Result<Vec<u8>, RunFault>
    ensures { MatchResult result (λ out. IsEditedFor order.now.goal source.now answer.now text.now out.items) IsWriteFault }
{
    let plain = edit(alloc, order.goal, text, source, answer)?;
    with_marks(alloc, order.goal, order.depth, answer, plain)
}

// An answer written as it was ordered.
fn write(
    alloc: Global,
    order: &Order,
    text: &[u8],
    source: &Node,
    answer: &Node,
) -> Result<Vec<u8>, RunFault>
    ensures { MatchResult result (λ out. IsWrittenFor order.now source.now answer.now text.now out.items) IsWriteFault }
{
    match order.style.layout() {
        Some(layout) => print_given(alloc, order.goal, order.depth, layout, answer),
        None => edit_given(alloc, order, text, source, answer),
    }
}

fn make(alloc: Global, order: &Order, program: Envelope) -> Result<Envelope, RunFault>
    requires { IsReady program }
    ensures { MatchResult result (IsMade (Some order.now.command) program) (IsUnmadeBy order.now.command program) }
{
    match make_given(alloc, Some(order.command), program) {
        Ok(made) => Ok(made),
        Err(error) => Err(RunFault::Refused(error)),
    }
}

fn copy(tree: &Node) -> Result<Node, RunFault>
    ensures { MatchResult result (λ copy. copy ≡ tree.now) IsWantOfMemory }
{
    match tree.clone() {
        Ok(copy) => Ok(copy),
        Err(_) => Err(RunFault::Refused(PassError::NoMemory)),
    }
}

// What the passes go by.
fn with_settings(program: Envelope, settings: &Settings) -> Envelope
    ensures { result ≡ settings_in settings.now program }
{
    Envelope {
        keep_class_names: settings.keep_class_names,
        ignore_eval: settings.ignore_eval,
        keep_top: Some(settings.keep_top),
        ..program
    }
}

// What a command makes of a program with the marks of its names, written.
fn rewrite(
    alloc: Global,
    order: &Order,
    text: &[u8],
    program: Envelope,
) -> Result<Vec<u8>, RunFault>
    requires { IsReady program }
    ensures { MatchResult result (λ out. IsRemade order.now program text.now out.items) (IsUnmadeOf order.now program) }
{
    let source = copy(&program.tree)?;
    let given = with_settings(program, &order.settings);
    let made = make(alloc, order, given)?;
    write(alloc, order, text, &source, &made.tree)
}

/// What a command makes of a text with marks behind its names. Marks of the answer are written, too: those that `Fix` and `Unparen` leave.
///
/// # Errors
///
/// Those of `rewrite_text`.
pub fn rewrite_marked(alloc: Global, order: &Order, text: &[u8]) -> Result<Vec<u8>, RunFault>
    ensures { MatchResult result (λ out. IsRewrittenMarked order.now text.now out.items) (IsUnrewrittenMarked order.now text.now) }
{
    let marked = give_marked(alloc, order.goal, order.depth, text)?;
    let program = marked.program;
    rewrite(alloc, order, marked.text.as_slice(), program)
}
