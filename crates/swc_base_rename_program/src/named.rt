//! The new texts of a program's ids.
ghost use Rattle.std.specs.Prelude.{◌≡◌, IfOk, IfErr};
ghost use Rattle.swc_base_rename_naming.specs.InOrder.{IsRefused, NamedInOrder};
ghost use Rattle.swc_base_rename_naming.specs.Steps.{text_at};
ghost use Rattle.swc_base_rename_naming_laws.specs.Rules.{numbered_sites};
ghost use Rattle.swc_base_rename_program.specs.Kept.{is_kept};
ghost use Rattle.swc_base_rename_program.specs.Asked.{AreNamedTexts, IsWellRead, program_rules};

use crate::behind::leaking_scopes;
use crate::kept::Kept;
use crate::mode::Mode;
use crate::program::Program;
use crate::spans::spans_of;
use std::alloc::{AllocError, Global};
use std::collections::{BTreeMap, BTreeSet};
use swc_base_rename_analysis::Analysis;
use swc_base_rename_naming::{NewTexts, names_by_scope, names_with_leaks, texts_by_id};
use swc_tree_marks::{Id, JsWord, PassError};

// The sites by the numbers of their scopes and ids.
fn sites_of(alloc: Global, analysis: &Analysis) -> Result<Vec<(usize, usize)>, AllocError>
    ensures { IfOk result (λ sites. sites.items ≡ numbered_sites analysis.now) }
{
    let mut sites = Vec::new(alloc);
    for site in analysis.sites.as_slice() {
        sites.push((site.scope, site.id))?;
    }
    Ok(sites)
}

// The texts by the numbers of ids, by scope. Where scopes beside one another may not share texts, names of scopes that leak count
// everywhere. Those of a scope that does not leak are of no concern once it ended, since none of its ids occurs behind it.
fn texts_by_number<T: NewTexts>(
    alloc: Global,
    texts: &T,
    mode: Mode,
    program: &Program<'_>,
) -> Result<BTreeMap<usize, JsWord>, PassError>
    requires { IsWellRead program.now.analysis.now }
    ensures named { IfOk result (λ found. NamedInOrder (program_rules (T.text texts.now) mode program.now.analysis.now (is_kept program.now.kept.now) program.now.left.now) (numbered_sites program.now.analysis.now) (text_at found)) }
    ensures refused { IfErr result (IsRefused (program_rules (T.text texts.now) mode program.now.analysis.now (is_kept program.now.kept.now) program.now.left.now) (numbered_sites program.now.analysis.now)) }
{
    let sites = sites_of(alloc, program.analysis)?;
    let sites = sites.as_slice();
    if mode.mangles {
        return names_by_scope(alloc, texts, program, true, sites);
    }
    let leaks = leaking_scopes(
        alloc,
        program.analysis.regions.as_slice(),
        program.spans,
        sites,
    )?;
    names_with_leaks(alloc, texts, program, !mode.resets, &leaks, sites)
}

/// The new texts of a tree's ids, by what was read off it, but for those ids that keep theirs: those texts that are other than the
/// id's own. `None` where no id gets a text. No name is one of the texts that are left.
///
/// # Errors
///
/// `CounterSpent` where for an id no counter from its start and below the greatest `usize` gives a free text, and `NoMemory`.
pub fn new_texts<'a, T: NewTexts>(
    alloc: Global,
    texts: &T,
    mode: Mode,
    kept: &'a Kept<'a>,
    left: &'a BTreeSet<String>,
    analysis: &'a Analysis,
) -> Result<Option<BTreeMap<Id, JsWord>>, PassError>
    requires { IsWellRead analysis.now }
    ensures named { IfOk result (AreNamedTexts (program_rules (T.text texts.now) mode analysis.now (is_kept kept.now) left.now) analysis.now) }
    ensures refused { IfErr result (IsRefused (program_rules (T.text texts.now) mode analysis.now (is_kept kept.now) left.now) (numbered_sites analysis.now)) }
{
    let spans = spans_of(alloc, analysis.ids.as_slice())?;
    let program = Program {
        analysis,
        kept,
        left,
        spans: spans.as_slice(),
    };
    let texts = texts_by_number(alloc, texts, mode, &program)?;
    let texts = texts_by_id(alloc, &program, analysis.ids.len(), &texts)?;
    Ok(texts)
}
