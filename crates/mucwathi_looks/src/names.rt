//! The free names of a text.
ghost use Rattle.std.specs.Prelude.{◌≡◌, Some, IfOk, OnOk, MatchResult, map};
ghost use Rattle.swc_tree_scoping.specs.declared.places.Scope.TheVariants as scope;
ghost use Rattle.swc_tree_scoping.specs.Places.{opened, program_place};
ghost use Rattle.swc_tree_walk.specs.Sites.{site_of};
ghost use Rattle.text_source.specs.Texts.{IsTextOf};
ghost use Rattle.mucwathi_looks.specs.Names.{AddsName, AddsText, AreNamesOf, HasFreeNames, HasNamesOf, Notes, is_marked};
ghost use Rattle.mucwathi_looks.specs.Looks.{IsLookRefusal, IsUnlooked};

use crate::places::bytes_before;
use mucwathi_commands::mucwathi_order::Goal;
use mucwathi_lists::FreeName;
use mucwathi_order::RunFault;
use mucwathi_passes::{own_marks, resolve, unresolved};
use std::alloc::{AllocError, Global};
use std::collections::BTreeSet;
use swc_tree_marks::{JsWord, Mark, PassError};
use swc_tree_node::Node;
use swc_tree_walk::{Site, sites};
use text_source::read_text;

// Whether an identifier is a reference with the one mark of names that nothing declares.
fn is_free(unresolved: Mark, site: &Site<'_>) -> bool
    ensures { result ≡ is_marked unresolved (site_of site.now) }
{
    match site.ident.ctxt.marks() {
        [mark] => site.is_reference() && *mark == unresolved,
        _ => false,
    }
}

// Adds the name of an identifier, where it is not there.
fn add<'a>(
    alloc: Global,
    site: Site<'a>,
    seen: &mut BTreeSet<&'a JsWord>,
    names: &mut Vec<FreeName>,
) -> Result<(), AllocError>
    ensures names { OnOk result (AddsName (site_of site.entry) seen.old names.old.items names.new.items) }
    ensures seen { OnOk result (AddsText site.entry.ident.now.sym seen.old seen.new) }
{
    let ident = site.ident;
    let text = &ident.sym;
    if seen.contains(&text) {
        return Ok(());
    }
    seen.insert(text)?;
    let copy = String::from_str(alloc, text.as_str())?;
    names.push(FreeName {
        text: copy,
        at: bytes_before(ident.span),
    })?;
    Ok(())
}

// The same, where the identifier is free.
fn note<'a>(
    alloc: Global,
    site: Site<'a>,
    seen: &mut BTreeSet<&'a JsWord>,
    names: &mut Vec<FreeName>,
) -> Result<(), AllocError>
    ensures { OnOk result (Notes (site_of site.entry) seen.old seen.new names.old.items names.new.items) }
{
    if is_free(unresolved(), &site) {
        return add(alloc, site, seen, names);
    }
    Ok(())
}

// The free names among identifiers. The set is ordered, so that no texts can make it slow.
fn names_among<'a>(alloc: Global, found: &[Site<'a>]) -> Result<Vec<FreeName>, AllocError>
    ensures { IfOk result (λ names. AreNamesOf (map site_of found.now) names.items) }
{
    let mut names = Vec::new(alloc);
    let mut seen = BTreeSet::new(alloc);
    for site in found {
        note(alloc, *site, &mut seen, &mut names)?;
    }
    Ok(names)
}

fn names_of(alloc: Global, source: Node) -> Result<Vec<FreeName>, PassError>
    requires { opened program_place source ≡ Some scope.Program }
    ensures { MatchResult result (λ names. HasNamesOf source names.items) (IsLookRefusal source) }
{
    let mut globals = own_marks(alloc)?;
    let resolved = resolve(alloc, &mut globals, source)?;
    let found = sites(alloc, &resolved)?;
    let names = names_among(alloc, found.as_slice())?;
    Ok(names)
}

// The free names of a program that was read.
fn names_in(alloc: Global, goal: Goal, text: &[u8], source: Node) -> Result<Vec<FreeName>, RunFault>
    requires { IsTextOf goal source text.now }
    ensures { MatchResult result (λ names. HasFreeNames goal text.now names.items) (IsUnlooked goal text.now) }
{
    match names_of(alloc, source) {
        Ok(names) => Ok(names),
        Err(error) => Err(RunFault::Refused(error)),
    }
}

/// The free names of a text: just the texts of references that nothing declares, each once, where it stands first.
///
/// Time grows in step with the text, but for the logarithm of how many names there are.
///
/// # Errors
///
/// `Text` where the text is not read; `Refused` where memory is refused, or marks are spent.
pub fn free_names(
    alloc: Global,
    goal: Goal,
    depth: u32,
    text: &[u8],
) -> Result<Vec<FreeName>, RunFault>
    ensures { MatchResult result (λ names. HasFreeNames goal text.now names.items) (IsUnlooked goal text.now) }
{
    match read_text(alloc, goal, depth, text) {
        Ok(source) => names_in(alloc, goal, text, source),
        Err(fault) => Err(RunFault::of_text(fault)),
    }
}
