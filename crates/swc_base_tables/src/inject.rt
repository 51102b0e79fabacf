//! Bringing helpers into a program, as a pass.
ghost use Rattle.std.specs.Prelude.{◌≡◌, ◌≢◌, ◌⊎◌, Some, None, true, false, OnErr, OnOk, IfOk, IfErr};
ghost use Rattle.swc_tree_node.specs.declared.slot.Slot.{Slot as Slot'};
ghost use Rattle.swc_tree_node.specs.Fits.{Fits};
ghost use Rattle.swc_tree.specs.Passes.{IsEmptied, IsEmptiedScript, IsExtended};
ghost use Rattle.swc_tree_modules.specs.Nodes.{module_node, script_node};
ghost use Rattle.swc_tree_spaces.specs.Spaces.{has_types};
ghost use Rattle.swc_base_tables_program.specs.Given.{Covers};
ghost use Rattle.swc_base_tables.specs.Kept.{KeepsScriptWellScoped, KeepsWellScoped};
ghost use Rattle.swc_base_tables.specs.Types.{InjectsProgram, RefusesProgram, brings_types, meets_types};
ghost use Rattle.swc_base_tables.specs.Visits.{GetsHelpers, InjectsNode, IsRefusedHelpers, RefusesNode};

use crate::bodies::HelperBodies;
use std::alloc::Global;
use std::mem;
use swc_base_tables_helpers::{HelperData, Helpers};
use swc_base_tables_laws::{
    injection_keeps_a_module_well_scoped, injection_keeps_a_script_well_scoped,
};
use swc_tree::{JsPass, empty_module, empty_script, types_in_module, types_in_script};
use swc_tree_handle::Opened;
use swc_tree_marks::{Globals, Mark, PassError};
use swc_tree_modules::{Module, Script};
use swc_tree_node::Node;
use swc_tree_spaces_laws::types_are_told;

/// Brings helpers into the first program that it is run on. Contracts see whether it has yet run by its bodies.
#[derive(Drop)]
pub struct InjectHelpers {
    global: Mark,
    helpers: HelperData,
    bodies: Option<HelperBodies>,
}

/// The pass that brings in the helpers which a program was given. Names that the bodies do not declare get the global mark.
pub fn inject_helpers(global_mark: Mark, helpers: &Helpers, bodies: HelperBodies) -> InjectHelpers
    requires global { global_mark ≢ 0 }
    requires covered { (helpers.now.external ≡ true) ⊎ Covers bodies helpers.now.enabled }
    ensures global { result.global ≡ global_mark }
    ensures helpers { result.helpers ≡ helpers.now }
    ensures bodies { result.bodies ≡ Some bodies }
{
    InjectHelpers {
        global: global_mark,
        helpers: helpers.data(),
        bodies: Some(bodies),
    }
}

// The node of a program with its helpers.
#[tactic(auto, using(crate::proofs::Fit::given_fit, crate::proofs::Fit::held_as))]
fn given(
    alloc: Global,
    globals: &mut Globals,
    global: Mark,
    held: HelperData,
    bodies: HelperBodies,
    program: Node,
) -> Result<Node, PassError>
    ensures done { IfOk result (GetsHelpers global held bodies globals.old globals.new program) }
    ensures fits { (s : Slot') → Fits program s → IfOk result (λ answer. Fits answer s) }
    ensures cause { IfErr result (IsRefusedHelpers held bodies globals.old globals.new program) }
    ensures marks { IsExtended globals.old globals.new }
{
    let helpers = Helpers::from_data(held);
    let bodies = bodies.into_bodies();
    let answer = swc_base_tables_program::inject_helpers(
        alloc, globals, global, &helpers, bodies, program,
    )?;
    Ok(answer)
}

impl InjectHelpers {
    // Whether declarations of types stand in a body that the pass would bring in.
    fn brings_types(&self) -> bool
        ensures { result ≡ brings_types self.now.helpers self.now.bodies }
    {
        let helpers = Helpers::from_data(self.helpers);
        match &self.bodies {
            Some(bodies) => bodies.bring_types(&helpers),
            None => false,
        }
    }

    // Whether they stand in a program or in such a body.
    fn meets_types(&self, program: &Module) -> bool
        ensures { result ≡ meets_types self.now (module_node program.now) }
    {
        types_in_module(program) || self.brings_types()
    }

    // The same with a program of the goal Script.
    fn meets_types_in_script(&self, program: &Script) -> bool
        ensures { result ≡ meets_types self.now (script_node program.now) }
    {
        types_in_script(program) || self.brings_types()
    }

    // What the pass makes of a program where no declarations of types stand.
    fn inject_in_module(
        &mut self,
        alloc: Global,
        globals: &mut Globals,
        program: &mut Module,
    ) -> Result<(), PassError>
        ensures done { OnOk result (InjectsNode self.old globals.old (module_node program.old) self.new globals.new (module_node program.new)) }
        ensures well_scoped { OnOk result (KeepsWellScoped self.old globals.old (module_node program.old) (module_node program.new)) }
        ensures refused { OnErr result (IsEmptied program.old program.new) }
        ensures marks { IsExtended globals.old globals.new }
        ensures cause { IfErr result (RefusesNode self.old globals.old (module_node program.old) self.new globals.new) }
    {
        injection_keeps_a_module_well_scoped();
        let Some(bodies) = self.bodies.take() else {
            return Ok(());
        };
        let module = mem::replace(program, empty_module(alloc, program.span));
        let node = module.into_node(alloc)?;
        let answer = given(alloc, globals, self.global, self.helpers, bodies, node)?;
        *program = Module::from_node(answer);
        Ok(())
    }

    // The same of a program of the goal Script.
    fn inject_in_script(
        &mut self,
        alloc: Global,
        globals: &mut Globals,
        program: &mut Script,
    ) -> Result<(), PassError>
        ensures done { OnOk result (InjectsNode self.old globals.old (script_node program.old) self.new globals.new (script_node program.new)) }
        ensures well_scoped { has_types (script_node program.old) ≡ false → OnOk result (KeepsScriptWellScoped self.old globals.old (script_node program.old) (script_node program.new)) }
        ensures refused { OnErr result (IsEmptiedScript program.old program.new) }
        ensures marks { IsExtended globals.old globals.new }
        ensures cause { IfErr result (RefusesNode self.old globals.old (script_node program.old) self.new globals.new) }
    {
        injection_keeps_a_script_well_scoped();
        types_are_told();
        let Some(bodies) = self.bodies.take() else {
            return Ok(());
        };
        let script = mem::replace(program, empty_script(alloc, program.span));
        let node = script.into_node(alloc)?;
        let answer = given(alloc, globals, self.global, self.helpers, bodies, node)?;
        *program = Script::from_node(answer);
        Ok(())
    }
}

impl JsPass for InjectHelpers {
    ghost visits = { λ pass old before kept new after. InjectsProgram pass old (module_node before) kept new (module_node after) };

    ghost visits_script = { λ pass old before kept new after. InjectsProgram pass old (script_node before) kept new (script_node after) };

    ghost refuses = { λ pass old before kept new e. RefusesProgram pass old (module_node before) kept new e };

    ghost refuses_script = { λ pass old before kept new e. RefusesProgram pass old (script_node before) kept new e };

    /// Brings helpers into a program, behind its leading string statements and in the order of the table: from a package
    /// by an import each, else as the statements of their bodies, resolved. Refused or not, this uses the bodies up, but for
    /// a refusal by `TypesLeft`, and later calls leave programs as they are. A well-scoped module stays so, where what it has in the helper mark's context refers to
    /// helpers that it gets.
    ///
    /// # Errors
    ///
    /// `TypesLeft` exactly where declarations of types stand in the program or in a body that goes in: nothing but the program
    /// changes then. Else `MarksSpent` only where the table's greatest number plus the number of scopes in the bodies is above 4294967295;
    /// `NoMemory`. The program is then empty, with its span and no `#!` line; the table holds what it held, and perhaps the
    /// first of the fresh marks.
    fn visit_mut_module(
        &mut self,
        alloc: Global,
        globals: &mut Globals,
        program: &mut Module,
    ) -> Result<(), PassError>
        ensures done { OnOk result (InjectsProgram self.old globals.old (module_node program.old) self.new globals.new (module_node program.new)) }
        ensures well_scoped { OnOk result (KeepsWellScoped self.old globals.old (module_node program.old) (module_node program.new)) }
        ensures refused { OnErr result (IsEmptied program.old program.new) }
        ensures marks { IsExtended globals.old globals.new }
        ensures cause { IfErr result (RefusesProgram self.old globals.old (module_node program.old) self.new globals.new) }
    {
        if self.meets_types(program) {
            *program = empty_module(alloc, program.span);
            return Err(PassError::TypesLeft);
        }
        self.inject_in_module(alloc, globals, program)
    }

    /// Brings helpers into a program of the goal Script, from a package by `require`; else as `visit_mut_module`. A well-scoped script
    /// stays so on the same terms; bodies have to be a plain script of its strictness.
    ///
    /// # Errors
    ///
    /// Those of `visit_mut_module`.
    fn visit_mut_script(
        &mut self,
        alloc: Global,
        globals: &mut Globals,
        program: &mut Script,
    ) -> Result<(), PassError>
        ensures done { OnOk result (InjectsProgram self.old globals.old (script_node program.old) self.new globals.new (script_node program.new)) }
        ensures well_scoped { OnOk result (KeepsScriptWellScoped self.old globals.old (script_node program.old) (script_node program.new)) }
        ensures refused { OnErr result (IsEmptiedScript program.old program.new) }
        ensures marks { IsExtended globals.old globals.new }
        ensures cause { IfErr result (RefusesProgram self.old globals.old (script_node program.old) self.new globals.new) }
    {
        if self.meets_types_in_script(program) {
            *program = empty_script(alloc, program.span);
            return Err(PassError::TypesLeft);
        }
        self.inject_in_script(alloc, globals, program)
    }
}
