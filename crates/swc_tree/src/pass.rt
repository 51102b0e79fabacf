//! Passes over programs.
ghost use Rattle.std.specs.Prelude.{IfOk, IfErr, OnOk, OnErr};
ghost use Rattle.swc_tree.specs.Passes.{IsEmptied, IsEmptiedScript, IsExtended};

use std::alloc::Global;
use swc_tree_marks::{Globals, PassError};
use swc_tree_modules::{Module, Script};

/// A pass over programs, which works in place.
///
/// Each pass of these crates but the resolver and `Noop` first asks `types_in_module` or `types_in_script`, and refuses a
/// program in which declarations of types stand by `PassError::TypesLeft`, with the pass and the table as they were.
pub trait JsPass {
    ghost use Rattle.swc_tree_marks.specs.Globals.{Table};
    ghost use Rattle.swc_tree_marks.specs.declared.error.PassError.{PassError};
    ghost use Rattle.swc_tree_modules.specs.declared.module_.Module.{Module};
    ghost use Rattle.swc_tree_modules.specs.declared.script.Script.{Script};

    /// What the pass does: of the pass, the table of marks and the program before, and of the three after.
    ghost visits: { Self → Table → Module → Self → Table → Module → Type 0 };

    /// What the pass does to a program of the goal Script.
    ghost visits_script: { Self → Table → Script → Self → Table → Script → Type 0 };

    /// When the pass is refused, why, and what it leaves: of the pass, the table of marks and the program before, of
    /// the pass and the table after, and of the error.
    ghost refuses: { Self → Table → Module → Self → Table → PassError → Type 0 };

    /// When the pass is refused a program of the goal Script, why, and what it leaves.
    ghost refuses_script: { Self → Table → Script → Self → Table → PassError → Type 0 };

    /// Runs the pass on a program.
    ///
    /// # Errors
    ///
    /// As `refuses` says, which also says what the pass and the table are then. Whatever the error, the program is
    /// then empty, with its span and no `#!` line. The table of marks keeps what it has, and may have more.
    fn visit_mut_module(
        &mut self,
        alloc: Global,
        globals: &mut Globals,
        program: &mut Module,
    ) -> Result<(), PassError>
        ensures done { OnOk result (visits self.old globals.old program.old self.new globals.new program.new) }
        ensures refused { OnErr result (IsEmptied program.old program.new) }
        ensures cause { IfErr result (refuses self.old globals.old program.old self.new globals.new) }
        ensures marks { IsExtended globals.old globals.new };

    /// Runs the pass on a program of the goal Script.
    ///
    /// # Errors
    ///
    /// As those of `visit_mut_module`.
    fn visit_mut_script(
        &mut self,
        alloc: Global,
        globals: &mut Globals,
        program: &mut Script,
    ) -> Result<(), PassError>
        ensures done { OnOk result (visits_script self.old globals.old program.old self.new globals.new program.new) }
        ensures refused { OnErr result (IsEmptiedScript program.old program.new) }
        ensures cause { IfErr result (refuses_script self.old globals.old program.old self.new globals.new) }
        ensures marks { IsExtended globals.old globals.new };

    /// Runs the pass on a program by value.
    ///
    /// # Errors
    ///
    /// Those of `visit_mut_module`. Whatever the error, nothing is given back. The table of marks keeps what it has, and may have
    /// more.
    fn fold_module(
        &mut self,
        alloc: Global,
        globals: &mut Globals,
        program: Module,
    ) -> Result<Module, PassError>
        ensures done { IfOk result (λ folded. visits self.old globals.old program self.new globals.new folded) }
        ensures cause { IfErr result (refuses self.old globals.old program self.new globals.new) }
        ensures marks { IsExtended globals.old globals.new }
    {
        let mut program = program;
        self.visit_mut_module(alloc, globals, &mut program)?;
        Ok(program)
    }

    /// Runs the pass on a program of the goal Script, by value.
    ///
    /// # Errors
    ///
    /// As those of `fold_module`.
    fn fold_script(
        &mut self,
        alloc: Global,
        globals: &mut Globals,
        program: Script,
    ) -> Result<Script, PassError>
        ensures done { IfOk result (λ folded. visits_script self.old globals.old program self.new globals.new folded) }
        ensures cause { IfErr result (refuses_script self.old globals.old program self.new globals.new) }
        ensures marks { IsExtended globals.old globals.new }
    {
        let mut program = program;
        self.visit_mut_script(alloc, globals, &mut program)?;
        Ok(program)
    }
}
