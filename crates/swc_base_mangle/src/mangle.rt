//! Programs with short names.
ghost use Rattle.std.specs.Prelude.{◌≡◌, ◌&&◌, ◌⊎◌, IfOk, IfErr};
ghost use Rattle.swc_tree_marks.specs.declared.error.PassError.TheVariants as error;
ghost use Rattle.swc_base_rename_naming.specs.Ids.{HasJust};
ghost use Rattle.swc_base_rename_substitution.specs.Room.{FitsAs};
ghost use Rattle.swc_base_mangle.specs.Mangled.{IsByUseRefusal, IsMangleRefusal, IsMangled, IsRenamedByUse, IsShortened};
ghost use Rattle.swc_base_mangle.specs.Own.{is_own};

use crate::own::own_ids;
use crate::strays::has_strays;
use std::alloc::Global;
use std::collections::HashSet;
use swc_base_rename_analysis::analyse;
use swc_base_rename_by_use::texts_of_program;
use swc_base_rename_program::{Mode, Renamer, rename_read};
use swc_base_rename_substitution::{Config, clear_contexts};
use swc_tree_marks::{Globals, Id, Mark, NoMemory, PassError};
use swc_tree_node::Node;

// The ids that keep their texts.
fn preserved_ids(
    alloc: Global,
    keeps_top: bool,
    top: Mark,
    tree: &Node,
) -> Result<HashSet<Id>, NoMemory>
    ensures { IfOk result (HasJust (λ x. keeps_top && is_own top tree.now x)) }
{
    if keeps_top {
        own_ids(alloc, top, tree)
    } else {
        Ok(HashSet::new(alloc))
    }
}

// A program with short names, whatever it is.
fn rename_short(
    alloc: Global,
    config: &Config,
    globals: &Globals,
    keeps_top: bool,
    tree: Node,
) -> Result<Node, PassError>
    ensures renamed { IfOk result (IsRenamedByUse globals.now config.now keeps_top tree) }
    ensures refused { IfErr result (λ e. (e ≡ error.NoMemory) ⊎ IsByUseRefusal globals.now config.now keeps_top tree e) }
    ensures fits { IfOk result (FitsAs tree) }
{
    let mode = Mode {
        mangles: false,
        resets: true,
    };
    let preserved = preserved_ids(alloc, keeps_top, config.top_level_mark, &tree)?;
    let analysis = analyse(alloc, &tree)?;
    let texts = texts_of_program(alloc, &preserved, &analysis, &tree)?;
    let renamer = Renamer {
        texts: &texts,
        mode,
        preserved: &preserved,
        config,
    };
    let tree = rename_read(alloc, &renamer, globals, &analysis, tree)?;
    Ok(tree)
}

// A program with short names, unless it has strays.
fn shorten_program(
    alloc: Global,
    config: &Config,
    globals: &Globals,
    keeps_top: bool,
    tree: Node,
) -> Result<Node, PassError>
    ensures named { IfOk result (IsShortened globals.now config.now keeps_top tree) }
    ensures refused { IfErr result (IsMangleRefusal globals.now config.now keeps_top tree) }
    ensures fits { IfOk result (FitsAs tree) }
{
    let keeps_all = has_strays(alloc, &tree)?;
    if keeps_all {
        return Ok(tree);
    }
    let given = rename_short(alloc, config, globals, keeps_top, tree)?;
    Ok(given)
}

/// A program whose ids have short texts, `a` to `z` and so on, where texts alone tell names apart, and no context. The ids that are used
/// most get the shortest that they can share (`texts_of_program`), and where such a text isn't free the first that is; with `keeps_top` ids
/// that have just the top mark keep theirs, which are the names of the program's scope. Where something reads names those that it may read
/// stay, as `rename_program` has it.
///
/// A script that has strays keeps all its names: a plain function in a block of sloppy code, or `undefined`, `NaN` or `Infinity` as a
/// name of the program.
///
/// # Errors
///
/// `CounterSpent` where for an id no counter below the greatest `usize` gives a free text, and `NoMemory`. The tree is then dropped.
pub fn mangle_program(
    alloc: Global,
    config: &Config,
    globals: &Globals,
    keeps_top: bool,
    tree: Node,
) -> Result<Node, PassError>
    ensures mangled { IfOk result (IsMangled globals.now config.now keeps_top tree) }
    ensures refused { IfErr result (IsMangleRefusal globals.now config.now keeps_top tree) }
    ensures fits { IfOk result (FitsAs tree) }
{
    let given = shorten_program(alloc, config, globals, keeps_top, tree)?;
    Ok(clear_contexts(alloc, given))
}
