//! The pass after which texts alone tell names apart.
ghost use Rattle.std.specs.Prelude.{◌≡◌, OnOk, OnErr, IfErr};
ghost use Rattle.swc_tree.specs.Passes.{IsEmptied, IsEmptiedScript, IsExtended};
ghost use Rattle.swc_tree.specs.Types.{IsDeclined, IsMade};
ghost use Rattle.swc_tree_modules.specs.Nodes.{module_node, script_node};
ghost use Rattle.swc_tree_spaces.specs.Spaces.{has_types};
ghost use Rattle.swc_base_rename.specs.Hygiene.{MakesHygienic, MakesScriptHygienic, RefusesHygiene};

use std::alloc::Global;
use std::mem;
use swc_base_rename_program::hygiene_program;
use swc_base_rename_substitution::Config;
use swc_base_renaming_laws::hygiene_keeps_spans;
use swc_tree::{JsPass, empty_module, empty_script, types_in_module, types_in_script};
use swc_tree_handle::Opened;
use swc_tree_marks::{Globals, PassError};
use swc_tree_modules::{Module, Script};

/// Gives names anew where ids of one text would meet, and then clears every context.
#[derive(Clone, Copy, Debug)]
pub struct Hygiene {
    config: Config,
}

impl Hygiene {
    /// The pass that goes by a configuration.
    pub fn new(config: Config) -> Hygiene
        ensures { result.config ≡ config }
    {
        Hygiene { config }
    }
}

impl Hygiene {
    // What the pass makes of a program without declarations of types.
    fn settle_module(
        &mut self,
        alloc: Global,
        globals: &mut Globals,
        program: &mut Module,
    ) -> Result<(), PassError>
        ensures done { OnOk result (MakesHygienic self.old globals.old (module_node program.old) self.new globals.new (module_node program.new)) }
        ensures refused { OnErr result (IsEmptied program.old program.new) }
        ensures marks { IsExtended globals.old globals.new }
        ensures cause { IfErr result (RefusesHygiene self.old globals.old (module_node program.old) self.new globals.new) }
    {
        hygiene_keeps_spans();
        let module = mem::replace(program, empty_module(alloc, program.span));
        let node = module.into_node(alloc)?;
        let answer = hygiene_program(alloc, &self.config, globals, node)?;
        *program = Module::from_node(answer);
        Ok(())
    }

    // The same of a program of the goal Script.
    fn settle_script(
        &mut self,
        alloc: Global,
        globals: &mut Globals,
        program: &mut Script,
    ) -> Result<(), PassError>
        ensures done { OnOk result (MakesScriptHygienic self.old globals.old (script_node program.old) self.new globals.new (script_node program.new)) }
        ensures refused { OnErr result (IsEmptiedScript program.old program.new) }
        ensures marks { IsExtended globals.old globals.new }
        ensures cause { IfErr result (RefusesHygiene self.old globals.old (script_node program.old) self.new globals.new) }
    {
        let script = mem::replace(program, empty_script(alloc, program.span));
        let node = script.into_node(alloc)?;
        let answer = hygiene_program(alloc, &self.config, globals, node)?;
        *program = Script::from_node(answer);
        Ok(())
    }
}

impl JsPass for Hygiene {
    ghost visits = { λ pass old before kept new after. IsMade (has_types (module_node before)) (MakesHygienic pass old (module_node before) kept new (module_node after)) };

    ghost visits_script = { λ pass old before kept new after. IsMade (has_types (script_node before)) (MakesScriptHygienic pass old (script_node before) kept new (script_node after)) };

    ghost refuses = { λ pass old before kept new e. IsDeclined (has_types (module_node before)) pass old kept new e (RefusesHygiene pass old (module_node before) kept new e) };

    ghost refuses_script = { λ pass old before kept new e. IsDeclined (has_types (script_node before)) pass old kept new e (RefusesHygiene pass old (script_node before) kept new e) };

    /// Gives each id that a program declares its own text, or where that is taken its text with the first number behind it
    /// that makes it free, and then clears every context. Where a direct `eval` or a `with` stands in the program, unless
    /// `ignore_eval` is set, ids whose outer mark descends from the top mark keep their texts, but each outermost function or
    /// class without one gets its names alone. The pass and the table of marks stay as they are.
    ///
    /// # Errors
    ///
    /// `TypesLeft` exactly where declarations of types stand in the program, and else `CounterSpent` where for an id no counter below
    /// the greatest `usize` gives a free text, and `NoMemory`. The program is then empty, with its span and no `#!` line.
    fn visit_mut_module(
        &mut self,
        alloc: Global,
        globals: &mut Globals,
        program: &mut Module,
    ) -> Result<(), PassError> {
        if types_in_module(program) {
            *program = empty_module(alloc, program.span);
            return Err(PassError::TypesLeft);
        }
        self.settle_module(alloc, globals, program)
    }

    /// Gives the ids of a program of the goal Script their texts, as `visit_mut_module` those of a module.
    ///
    /// # Errors
    ///
    /// Those of `visit_mut_module`.
    fn visit_mut_script(
        &mut self,
        alloc: Global,
        globals: &mut Globals,
        program: &mut Script,
    ) -> Result<(), PassError> {
        if types_in_script(program) {
            *program = empty_script(alloc, program.span);
            return Err(PassError::TypesLeft);
        }
        self.settle_script(alloc, globals, program)
    }
}
