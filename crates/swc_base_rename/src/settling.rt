//! Hygiene by a renamer of one's own.
ghost use Rattle.std.specs.Prelude.{IfOk, IfErr, OnOk, OnErr};
ghost use Rattle.std.specs.HashSet.{contains};
ghost use Rattle.swc_tree.specs.Passes.{IsEmptied, IsEmptiedScript};
ghost use Rattle.swc_tree_modules.specs.Nodes.{module_node, script_node};
ghost use Rattle.swc_base_renaming_laws.specs.Renamers.{IsLawful, IsRenamedAndCleared};
ghost use Rattle.swc_base_rename_program.specs.Renamed.{IsRenameRefusal, renaming};
ghost use Rattle.swc_base_rename_substitution.specs.Names.{same_id};
ghost use Rattle.swc_base_rename_substitution.specs.Room.{FitsAs};
ghost use Rattle.swc_base_rename.specs.Renamers.{RefusesSettling, SettlesNames, renaming_in};

use crate::lawful::Renamer;
use crate::renaming::{Texts, mode_of};
use std::alloc::Global;
use std::collections::HashSet;
use std::mem;
use swc_base_rename_program::rename_program;
use swc_base_rename_substitution::{Config, clear_contexts};
use swc_tree::{empty_module, empty_script};
use swc_tree_handle::Opened;
use swc_tree_marks::{Globals, Id, PassError};
use swc_tree_modules::{Module, Script};
use swc_tree_node::Node;

// A program's tree with its names as a renamer has them, that was asked for the preserved ids, and without contexts.
fn settled<R: Renamer>(
    alloc: Global,
    globals: &Globals,
    config: &Config,
    renamer: &R,
    preserved: &HashSet<Id>,
    tree: Node,
) -> Result<Node, PassError>
    ensures named { IfOk result (IsRenamedAndCleared globals.now config.now (renaming (R.text renamer.now) (record { mangles = R.MANGLE; resets = R.RESET_N }) (contains same_id preserved.now)) tree) }
    ensures refused { IfErr result (IsRenameRefusal globals.now config.now (renaming (R.text renamer.now) (record { mangles = R.MANGLE; resets = R.RESET_N }) (contains same_id preserved.now)) tree) }
    ensures fits { IfOk result (FitsAs tree) }
{
    let texts = Texts { renamer };
    let mode = mode_of::<R>();
    let given = rename_program(alloc, &texts, mode, preserved, config, globals, tree)?;
    Ok(clear_contexts(alloc, given))
}

/// Gives the names of a module without declarations of types anew, as a renamer has them, and then clears every context. The renamer is
/// asked once, first, for the ids that keep their texts, and the names go by what that call made of it.
///
/// # Errors
///
/// `CounterSpent` where for an id no counter from its start and below the greatest `usize` gives a free text, and `NoMemory`. The module
/// is then empty, with its span and no `#!` line.
pub fn settle_module_with<R: Renamer>(
    alloc: Global,
    globals: &Globals,
    config: &Config,
    renamer: &mut R,
    program: &mut Module,
) -> Result<(), PassError>
    ensures done { OnOk result (SettlesNames R.text R.preserved R.asked R.MANGLE R.RESET_N config.now globals.now renamer.old (module_node program.old) renamer.new (module_node program.new)) }
    ensures refused { OnErr result (IsEmptied program.old program.new) }
    ensures cause { IfErr result (RefusesSettling R.text R.preserved R.asked R.MANGLE R.RESET_N config.now globals.now renamer.old (module_node program.old) renamer.new) }
    ensures lawful { IsLawful (renaming_in R.text R.preserved R.asked R.MANGLE R.RESET_N renamer.old renamer.new (module_node program.old)) }
{
    let module = mem::replace(program, empty_module(alloc, program.span));
    let preserved = renamer.preserved_ids_for_module(alloc, &module)?;
    let node = module.into_node(alloc)?;
    let answer = settled(alloc, globals, config, renamer, &preserved, node)?;
    *program = Module::from_node(answer);
    Ok(())
}

/// The same for a program of the goal Script.
///
/// # Errors
///
/// Those of `settle_module_with`.
pub fn settle_script_with<R: Renamer>(
    alloc: Global,
    globals: &Globals,
    config: &Config,
    renamer: &mut R,
    program: &mut Script,
) -> Result<(), PassError>
    ensures done { OnOk result (SettlesNames R.text R.preserved R.asked R.MANGLE R.RESET_N config.now globals.now renamer.old (script_node program.old) renamer.new (script_node program.new)) }
    ensures refused { OnErr result (IsEmptiedScript program.old program.new) }
    ensures cause { IfErr result (RefusesSettling R.text R.preserved R.asked R.MANGLE R.RESET_N config.now globals.now renamer.old (script_node program.old) renamer.new) }
    ensures lawful { IsLawful (renaming_in R.text R.preserved R.asked R.MANGLE R.RESET_N renamer.old renamer.new (script_node program.old)) }
{
    let script = mem::replace(program, empty_script(alloc, program.span));
    let preserved = renamer.preserved_ids_for_script(alloc, &script)?;
    let node = script.into_node(alloc)?;
    let answer = settled(alloc, globals, config, renamer, &preserved, node)?;
    *program = Script::from_node(answer);
    Ok(())
}
