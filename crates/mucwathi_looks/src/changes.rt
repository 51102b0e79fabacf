//! What a command changes.
ghost use Rattle.std.specs.Prelude.{◌≡◌, IfOk, MatchResult, map};
ghost use Rattle.swc_tree_walk.specs.Sites.{site_of};
ghost use Rattle.text_source.specs.Texts.{SpansAreOf};
ghost use Rattle.mucwathi_commands.specs.Faults.{IsRunFault};
ghost use Rattle.mucwathi_commands.specs.Written.{IsReadAs};
ghost use Rattle.mucwathi_lists.specs.Changed.{seen, told};
ghost use Rattle.mucwathi_looks.specs.Changes.{HasChanges, IsWantOfMemory, changes_between as all_between, seen_of};

use mucwathi_commands::mucwathi_order::Order;
use mucwathi_lists::{Change, Occurrence, changes_between};
use mucwathi_order::RunFault;
use mucwathi_passes::make;
use std::alloc::{AllocError, Global};
use swc_tree_marks::PassError;
use swc_tree_node::Node;
use swc_tree_walk::{Site, sites};
use text_source::read_text;

// Identifiers by where they stand.
fn occurrences<'a>(alloc: Global, found: &[Site<'a>]) -> Result<Vec<Occurrence<'a>>, AllocError>
    ensures { IfOk result (λ names. map seen names.items ≡ map seen_of (map site_of found.now)) }
{
    let mut names = Vec::new(alloc);
    for site in found {
        names.push(Occurrence {
            lo: site.ident.span.lo,
            text: site.ident.sym.as_str(),
        })?;
    }
    Ok(names)
}

// The identifiers of a program that have another text than what stood at their places in another.
fn between(alloc: Global, source: &Node, answer: &Node) -> Result<Vec<Change>, AllocError>
    ensures { IfOk result (λ changes. map told changes.items ≡ all_between source.now answer.now) }
{
    let olds = sites(alloc, source)?;
    let news = sites(alloc, answer)?;
    let before = occurrences(alloc, olds.as_slice())?;
    let after = occurrences(alloc, news.as_slice())?;
    changes_between(alloc, before.as_slice(), after.as_slice())
}

// The same, or that memory was refused.
fn told_between(alloc: Global, source: &Node, answer: &Node) -> Result<Vec<Change>, RunFault>
    ensures { MatchResult result (λ changes. map told changes.items ≡ all_between source.now answer.now) IsWantOfMemory }
{
    match between(alloc, source, answer) {
        Ok(changes) => Ok(changes),
        Err(_) => Err(RunFault::Refused(PassError::NoMemory)),
    }
}

// The names that a command gives anew in a program, of which it gets a copy.
fn changes_of_copy(
    alloc: Global,
    order: &Order,
    text: &[u8],
    source: &Node,
    copy: Node,
) -> Result<Vec<Change>, RunFault>
    requires read { IsReadAs order.now.goal source.now text.now }
    requires stands { SpansAreOf order.now.goal source.now text.now }
    requires same { copy ≡ source.now }
    ensures { MatchResult result (λ changes. HasChanges order.now text.now changes.items) (IsRunFault order.now text.now) }
{
    match make(alloc, order.command, &order.settings, copy) {
        Ok(answer) => told_between(alloc, source, &answer),
        Err(error) => Err(RunFault::Refused(error)),
    }
}

// The names that a command gives anew in a text that was read.
fn changes_in(
    alloc: Global,
    order: &Order,
    text: &[u8],
    source: &Node,
) -> Result<Vec<Change>, RunFault>
    requires read { IsReadAs order.now.goal source.now text.now }
    requires stands { SpansAreOf order.now.goal source.now text.now }
    ensures { MatchResult result (λ changes. HasChanges order.now text.now changes.items) (IsRunFault order.now text.now) }
{
    match source.clone() {
        Ok(copy) => changes_of_copy(alloc, order, text, source, copy),
        Err(_) => Err(RunFault::Refused(PassError::NoMemory)),
    }
}

/// The names that a command gives anew in a text, in the order of the answer: just its identifiers that have another text than what stood at
/// their places.
///
/// # Errors
///
/// Those of `rewrite_text`, but for what is written.
pub fn list_changes(alloc: Global, order: &Order, text: &[u8]) -> Result<Vec<Change>, RunFault>
    ensures { MatchResult result (λ changes. HasChanges order.now text.now changes.items) (IsRunFault order.now text.now) }
{
    match read_text(alloc, order.goal, order.depth, text) {
        Ok(source) => changes_in(alloc, order, text, &source),
        Err(fault) => Err(RunFault::of_text(fault)),
    }
}
