//! The pass that gives names anew as a renamer has them.
ghost use Rattle.std.specs.Prelude.{◌≡◌, OnOk, OnErr, IfErr};
ghost use Rattle.swc_tree.specs.Passes.{IsEmptied, IsEmptiedScript, IsExtended};
ghost use Rattle.swc_tree_modules.specs.Nodes.{module_node, script_node};
ghost use Rattle.swc_base_rename.specs.Renamers.{RefusesNames, RefusesProgram, RenamesNames, RenamesProgram};

use crate::lawful::Renamer;
use std::alloc::Global;
use std::mem;
use swc_base_rename_naming::NewTexts;
use swc_base_rename_program::{Mode, rename_program};
use swc_base_rename_substitution::Config;
use swc_base_renaming_laws::{maps_have_bounds, refusals_are_of_crowding};
use swc_tree::{JsPass, empty_module, empty_script, types_in_module, types_in_script};
use swc_tree_handle::Opened;
use swc_tree_marks::{Globals, Id, JsWord, PassError};
use swc_tree_modules::{Module, Script};

// The texts of a renamer.
#[derive(Clone, Copy)]
pub(crate) struct Texts<'a, R> {
    pub(crate) renamer: &'a R,
}

impl<R: Renamer> NewTexts for Texts<'_, R> {
    ghost text = { λ texts x n. R.text texts.renamer.now x n };

    fn are_alike(&self) -> bool {
        self.renamer.are_alike()
    }

    fn new_text(&self, alloc: Global, id: &Id, n: &mut usize) -> Result<JsWord, PassError> {
        self.renamer.new_name_for(alloc, id, n)
    }

    ghost differ = { λ texts x m n. R.differ texts.renamer.now x m n };
}

// The settings of a renamer.
pub(crate) fn mode_of<R: Renamer>() -> Mode
    ensures { result ≡ record { mangles = R.MANGLE; resets = R.RESET_N } }
{
    Mode {
        mangles: R::MANGLE,
        resets: R::RESET_N,
    }
}

/// Gives the names of a program anew, as a renamer has them.
#[derive(Clone, Copy)]
pub struct RenamePass<R> {
    config: Config,
    renamer: R,
}

/// The pass that gives each id that a program declares the first text that the renamer has for it and that is free where
/// the id stands. Where a direct `eval` or a `with` stands in the program, unless `ignore_eval` is set, ids whose outer mark
/// descends from the top mark keep their texts, but each outermost function or class without one is renamed alone.
pub fn renamer<R: Renamer>(config: Config, renamer: R) -> RenamePass<R>
    ensures { result ≡ record { config = config; renamer = renamer } }
{
    RenamePass { config, renamer }
}

impl<R: Renamer> RenamePass<R> {
    // What the pass makes of a program without declarations of types.
    fn rename_module(
        &mut self,
        alloc: Global,
        globals: &mut Globals,
        program: &mut Module,
    ) -> Result<(), PassError>
        ensures done { OnOk result (RenamesNames R.text R.preserved R.asked R.MANGLE R.RESET_N self.old globals.old (module_node program.old) self.new globals.new (module_node program.new)) }
        ensures refused { OnErr result (IsEmptied program.old program.new) }
        ensures marks { IsExtended globals.old globals.new }
        ensures cause { IfErr result (RefusesNames R.text R.preserved R.asked R.MANGLE R.RESET_N self.old globals.old (module_node program.old) self.new globals.new) }
    {
        maps_have_bounds();
        refusals_are_of_crowding();
        let module = mem::replace(program, empty_module(alloc, program.span));
        let preserved = self.renamer.preserved_ids_for_module(alloc, &module)?;
        let node = module.into_node(alloc)?;
        let texts = Texts {
            renamer: &self.renamer,
        };
        let mode = mode_of::<R>();
        let answer = rename_program(alloc, &texts, mode, &preserved, &self.config, globals, node)?;
        *program = Module::from_node(answer);
        Ok(())
    }

    // The same of a program of the goal Script.
    fn rename_script(
        &mut self,
        alloc: Global,
        globals: &mut Globals,
        program: &mut Script,
    ) -> Result<(), PassError>
        ensures done { OnOk result (RenamesNames R.text R.preserved R.asked R.MANGLE R.RESET_N self.old globals.old (script_node program.old) self.new globals.new (script_node program.new)) }
        ensures refused { OnErr result (IsEmptiedScript program.old program.new) }
        ensures marks { IsExtended globals.old globals.new }
        ensures cause { IfErr result (RefusesNames R.text R.preserved R.asked R.MANGLE R.RESET_N self.old globals.old (script_node program.old) self.new globals.new) }
    {
        maps_have_bounds();
        refusals_are_of_crowding();
        let script = mem::replace(program, empty_script(alloc, program.span));
        let preserved = self.renamer.preserved_ids_for_script(alloc, &script)?;
        let node = script.into_node(alloc)?;
        let texts = Texts {
            renamer: &self.renamer,
        };
        let mode = mode_of::<R>();
        let answer = rename_program(alloc, &texts, mode, &preserved, &self.config, globals, node)?;
        *program = Script::from_node(answer);
        Ok(())
    }
}

impl<R: Renamer> JsPass for RenamePass<R> {
    ghost visits = { λ pass old before kept new after. RenamesProgram R.text R.preserved R.asked R.MANGLE R.RESET_N pass old (module_node before) kept new (module_node after) };

    ghost visits_script = { λ pass old before kept new after. RenamesProgram R.text R.preserved R.asked R.MANGLE R.RESET_N pass old (script_node before) kept new (script_node after) };

    ghost refuses = { λ pass old before kept new e. RefusesProgram R.text R.preserved R.asked R.MANGLE R.RESET_N pass old (module_node before) kept new e };

    ghost refuses_script = { λ pass old before kept new e. RefusesProgram R.text R.preserved R.asked R.MANGLE R.RESET_N pass old (script_node before) kept new e };

    /// Gives the names of a program anew. The renamer is asked once, first, for the ids that keep their texts, and then goes by what
    /// that call made of it. The table of marks stays as it is. The counter of an id is at most as far past its start as there are
    /// preserved texts and ids named before it; and on a well-scoped program it is one whether all names count at a scope, or only
    /// those of the scope and of the scopes round it.
    ///
    /// # Errors
    ///
    /// `TypesLeft` exactly where declarations of types stand in the program: the renamer is then not asked, and nothing but the program
    /// changes. Else `CounterSpent` where for an id no counter from its start and below the greatest `usize` gives a free text, so that there are
    /// as many preserved texts and ids named before it as counters from its start to the greatest, and `NoMemory`. Any start will
    /// do, but where the renamer goes on counting within a scope, only one behind the counters of the scope's earlier ids. The
    /// program is then empty, with its span and no `#!` line.
    fn visit_mut_module(
        &mut self,
        alloc: Global,
        globals: &mut Globals,
        program: &mut Module,
    ) -> Result<(), PassError>
        ensures done { OnOk result (RenamesProgram R.text R.preserved R.asked R.MANGLE R.RESET_N self.old globals.old (module_node program.old) self.new globals.new (module_node program.new)) }
        ensures refused { OnErr result (IsEmptied program.old program.new) }
        ensures marks { IsExtended globals.old globals.new }
        ensures cause { IfErr result (RefusesProgram R.text R.preserved R.asked R.MANGLE R.RESET_N self.old globals.old (module_node program.old) self.new globals.new) }
    {
        if types_in_module(program) {
            *program = empty_module(alloc, program.span);
            return Err(PassError::TypesLeft);
        }
        self.rename_module(alloc, globals, program)
    }

    /// Gives the names of a program of the goal Script anew, as `visit_mut_module` those of a module.
    ///
    /// # Errors
    ///
    /// Those of `visit_mut_module`.
    fn visit_mut_script(
        &mut self,
        alloc: Global,
        globals: &mut Globals,
        program: &mut Script,
    ) -> Result<(), PassError>
        ensures done { OnOk result (RenamesProgram R.text R.preserved R.asked R.MANGLE R.RESET_N self.old globals.old (script_node program.old) self.new globals.new (script_node program.new)) }
        ensures refused { OnErr result (IsEmptiedScript program.old program.new) }
        ensures marks { IsExtended globals.old globals.new }
        ensures cause { IfErr result (RefusesProgram R.text R.preserved R.asked R.MANGLE R.RESET_N self.old globals.old (script_node program.old) self.new globals.new) }
    {
        if types_in_script(program) {
            *program = empty_script(alloc, program.span);
            return Err(PassError::TypesLeft);
        }
        self.rename_script(alloc, globals, program)
    }
}
