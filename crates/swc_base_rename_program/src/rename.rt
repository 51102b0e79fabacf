//! Programs with their names given anew.
ghost use Rattle.std.specs.Prelude.{◌≡◌, IfOk, IfErr};
ghost use Rattle.std.specs.HashSet.{contains};
ghost use Rattle.swc_base_rename_substitution.specs.Names.{same_id};
ghost use Rattle.swc_base_rename_substitution.specs.Room.{FitsAs};
ghost use Rattle.swc_base_rename_analysis.specs.Read.{IsRead};
ghost use Rattle.swc_base_rename_analysis.specs.Walk.{laid_out};
ghost use Rattle.swc_base_rename_program.specs.Left.{AreLeftTexts, IsTopRefusal, IsTopTable, IsUnitsRefusal};
ghost use Rattle.swc_base_rename_program.specs.Renamed.{IsHygienic, IsRenameRefusal, IsRenamedBy, IsRenamedByUnits, hygiene_renaming, renaming};

use crate::alone::{Apart, with_names};
use crate::kept::Kept;
use crate::left::{left_texts, texts_of};
use crate::mode::Mode;
use crate::named::new_texts;
use crate::top_mark::TopMark;
use std::alloc::Global;
use std::collections::{BTreeMap, BTreeSet, HashSet};
use swc_base_rename_analysis::{Analysis, analyse};
use swc_base_rename_naming::{HygieneTexts, NewTexts};
use swc_base_rename_substitution::{Config, clear_contexts};
use swc_base_rename_units::{Alone, has_eval, rename_units};
use swc_tree_marks::{Globals, Id, JsWord, Mark, PassError};
use swc_tree_node::Node;

/// What gives ids new texts, how, which ids keep theirs, and by which configuration.
#[derive(Clone, Copy)]
pub struct Renamer<'a, T> {
    pub texts: &'a T,
    pub mode: Mode,
    pub preserved: &'a HashSet<Id>,
    pub config: &'a Config,
}

/// A program whose ids have new texts, but for those ids that are preserved: each id that a scope declares gets the text of the
/// least counter that is free there, as `Named` says, and the tree is what `Substituted` says.
///
/// Where no id gets a text the tree stays as it is. Where a direct `eval` or a `with` stands in it, unless the configuration
/// ignores them, ids whose outer mark descends from the top mark get no new texts, but each outermost unit without one is
/// renamed alone, before the program is.
///
/// # Errors
///
/// `CounterSpent` where for an id no counter from its start and below the greatest `usize` gives a free text, and `NoMemory`.
/// The tree is then dropped.
///
/// # Cost
///
/// Time in step with the size of the tree, but for logarithms of the numbers of ids, sites and positions, and for the texts
/// that are tried: at most one more for an id than are taken. Each is looked up in the scope and in those round it and, where an
/// id occurs behind a scope that declares it and `mode.mangles` is off, also among the names that such scopes gave before.
/// Where something reads names, two walks more go over each node at most once.
pub fn rename_program<T: NewTexts>(
    alloc: Global,
    texts: &T,
    mode: Mode,
    preserved: &HashSet<Id>,
    config: &Config,
    globals: &Globals,
    tree: Node,
) -> Result<Node, PassError>
    ensures renamed { IfOk result (IsRenamedBy globals.now config.now (renaming (T.text texts.now) mode (contains same_id preserved.now)) tree) }
    ensures refused { IfErr result (IsRenameRefusal globals.now config.now (renaming (T.text texts.now) mode (contains same_id preserved.now)) tree) }
    ensures fits { IfOk result (FitsAs tree) }
{
    let renamer = Renamer {
        texts,
        mode,
        preserved,
        config,
    };
    let analysis = analyse(alloc, &tree)?;
    rename_read(alloc, &renamer, globals, &analysis, tree)
}

/// The same of a program of which was read what a renamer is to know.
///
/// # Errors
///
/// As `rename_program`.
pub fn rename_read<T: NewTexts>(
    alloc: Global,
    renamer: &Renamer<'_, T>,
    globals: &Globals,
    analysis: &Analysis,
    tree: Node,
) -> Result<Node, PassError>
    requires { IsRead (laid_out tree) analysis.now }
    ensures renamed { IfOk result (IsRenamedBy globals.now renamer.now.config.now (renaming (T.text renamer.now.texts.now) renamer.now.mode (contains same_id renamer.now.preserved.now)) tree) }
    ensures refused { IfErr result (IsRenameRefusal globals.now renamer.now.config.now (renaming (T.text renamer.now.texts.now) renamer.now.mode (contains same_id renamer.now.preserved.now)) tree) }
    ensures fits { IfOk result (FitsAs tree) }
{
    let config = renamer.config;
    if !config.ignore_eval && has_eval(&tree) {
        return rename_by_units(alloc, renamer, globals, analysis, tree);
    }
    let left = texts_of(alloc, renamer.preserved)?;
    let whole = Apart {
        texts: renamer.texts,
        mode: renamer.mode,
        preserved: renamer.preserved,
        left: &left,
        config,
    };
    let tree = whole.rename_read(alloc, analysis, tree)?;
    Ok(tree)
}

// A program in which something reads names: its own names are chosen first, then its units are renamed, and then it is.
fn rename_by_units<T: NewTexts>(
    alloc: Global,
    renamer: &Renamer<'_, T>,
    globals: &Globals,
    analysis: &Analysis,
    tree: Node,
) -> Result<Node, PassError>
    requires { IsRead (laid_out tree) analysis.now }
    ensures renamed { IfOk result (IsRenamedByUnits globals.now renamer.now.config.now.top_level_mark (renaming (T.text renamer.now.texts.now) renamer.now.mode (contains same_id renamer.now.preserved.now)) renamer.now.config.now.keep_class_names tree) }
    ensures refused { IfErr result (IsUnitsRefusal globals.now renamer.now.config.now.top_level_mark (renaming (T.text renamer.now.texts.now) renamer.now.mode (contains same_id renamer.now.preserved.now)) tree) }
    ensures fits { IfOk result (FitsAs tree) }
{
    let (table, left) = top_names(alloc, renamer, globals, analysis, &tree)?;
    let apart = Apart {
        texts: renamer.texts,
        mode: renamer.mode,
        preserved: renamer.preserved,
        left: &left,
        config: renamer.config,
    };
    let tree = rename_units(alloc, &apart, tree)?;
    let tree = with_names(alloc, &table, renamer.config, tree)?;
    Ok(tree)
}

// The new texts of a program in which something reads names, and the texts that no name in it may be.
fn top_names<'a, T: NewTexts>(
    alloc: Global,
    renamer: &'a Renamer<'a, T>,
    globals: &'a Globals,
    analysis: &Analysis,
    tree: &Node,
) -> Result<(Option<BTreeMap<Id, JsWord>>, BTreeSet<String>), PassError>
    requires { IsRead (laid_out tree.now) analysis.now }
    ensures named { IfOk result (λ found. IsTopTable globals.now renamer.now.config.now.top_level_mark (renaming (T.text renamer.now.texts.now) renamer.now.mode (contains same_id renamer.now.preserved.now)) tree.now found.0) }
    ensures left { IfOk result (λ found. AreLeftTexts renamer.now.config.now.top_level_mark (contains same_id renamer.now.preserved.now) tree.now found.1) }
    ensures refused { IfErr result (IsTopRefusal globals.now renamer.now.config.now.top_level_mark (renaming (T.text renamer.now.texts.now) renamer.now.mode (contains same_id renamer.now.preserved.now)) tree.now) }
{
    let top = renamer.config.top_level_mark;
    let left = left_texts(alloc, renamer.preserved, top, analysis)?;
    let kept = Kept {
        preserved: renamer.preserved,
        below: Some(TopMark::new(top, globals)),
    };
    let table = new_texts(alloc, renamer.texts, renamer.mode, &kept, &left, analysis)?;
    Ok((table, left))
}

/// A program in which texts alone tell names apart: where two ids of one text would meet, one gets its text with a number
/// behind it; then each context is empty.
///
/// # Errors
///
/// As `rename_program`.
pub fn hygiene_program(
    alloc: Global,
    config: &Config,
    globals: &Globals,
    tree: Node,
) -> Result<Node, PassError>
    ensures hygienic { IfOk result (IsHygienic globals.now config.now tree) }
    ensures refused { IfErr result (IsRenameRefusal globals.now config.now hygiene_renaming tree) }
    ensures fits { IfOk result (FitsAs tree) }
{
    let mode = Mode {
        mangles: false,
        resets: true,
    };
    let preserved = HashSet::new(alloc);
    let tree = rename_program(
        alloc,
        &HygieneTexts,
        mode,
        &preserved,
        config,
        globals,
        tree,
    )?;
    Ok(clear_contexts(alloc, tree))
}
