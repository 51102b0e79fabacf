//! Setting parentheses anew, as a pass.
ghost use Rattle.std.specs.Prelude.{OnOk, OnErr, IfErr};
ghost use Rattle.swc_tree.specs.Passes.{IsEmptied, IsEmptiedScript, IsExtended};
ghost use Rattle.swc_base_fixer_program.specs.Answers.{moves_for};
ghost use Rattle.swc_base_fixer.specs.Refusals.{Refuses, RefusesNode, RefusesScript};
ghost use Rattle.swc_tree_modules.specs.Nodes.{module_node, script_node};
ghost use Rattle.swc_base_fixer.specs.Promises.{Promises};
ghost use Rattle.swc_base_fixer.specs.Fixes.{Fixes, FixesNode, FixesScript};

use crate::fixing::Fixer;
use std::alloc::Global;
use std::mem;
use swc_tree::{JsPass, empty_module, empty_script, types_in_module, types_in_script};
use swc_tree_comments::Comments;
use swc_tree_handle::Trees;
use swc_tree_marks::{Globals, PassError};
use swc_tree_modules::{Module, Script};

impl<'a, C: Comments> Fixer<'a, C> {
    // What the pass makes of a program without declarations of types.
    #[tactic(auto, using(crate::proofs::Open::items_open, crate::proofs::Fixed::module_answer, crate::proofs::Programs::module_bare, crate::proofs::Fixed::module_moves_for))]
    fn fix_module(
        &mut self,
        alloc: Global,
        globals: &mut Globals,
        program: &mut Module,
    ) -> Result<(), PassError>
        ensures done { OnOk result (FixesNode C.moved self.old.comments globals.old (module_node program.old) self.new.comments globals.new (module_node program.new)) }
        ensures promises { OnOk result (Promises (module_node program.old) (module_node program.new)) }
        ensures refused { OnErr result (IsEmptied program.old program.new) }
        ensures marks { IsExtended globals.old globals.new }
        ensures cause { IfErr result (RefusesNode C.moved moves_for self.old.comments globals.old (module_node program.old) self.new.comments globals.new) }
    {
        let Module {
            span,
            body,
            shebang,
        } = mem::replace(program, empty_module(alloc, program.span));
        let body = self.fix(alloc, body.into_node())?;
        *program = Module {
            span,
            body: Trees::from_node(body),
            shebang,
        };
        Ok(())
    }

    // The same of a program of the goal Script.
    #[tactic(auto, using(crate::proofs::Open::statements_open, crate::proofs::Fixed::script_answer, crate::proofs::Programs::script_bare, crate::proofs::Fixed::script_moves_for))]
    fn fix_script(
        &mut self,
        alloc: Global,
        globals: &mut Globals,
        program: &mut Script,
    ) -> Result<(), PassError>
        ensures done { OnOk result (FixesNode C.moved self.old.comments globals.old (script_node program.old) self.new.comments globals.new (script_node program.new)) }
        ensures promises { OnOk result (Promises (script_node program.old) (script_node program.new)) }
        ensures refused { OnErr result (IsEmptiedScript program.old program.new) }
        ensures marks { IsExtended globals.old globals.new }
        ensures cause { IfErr result (RefusesNode C.moved moves_for self.old.comments globals.old (script_node program.old) self.new.comments globals.new) }
    {
        let Script {
            span,
            body,
            shebang,
        } = mem::replace(program, empty_script(alloc, program.span));
        let body = self.fix(alloc, body.into_node())?;
        *program = Script {
            span,
            body: Trees::from_node(body),
            shebang,
        };
        Ok(())
    }
}

impl<'a, C: Comments> JsPass for Fixer<'a, C> {
    ghost visits = { λ pass old before kept new after. Fixes C.moved pass.comments old before kept.comments new after };

    ghost visits_script = { λ pass old before kept new after. FixesScript C.moved pass.comments old before kept.comments new after };

    ghost refuses = { λ pass old before kept new e. Refuses C.moved moves_for pass.comments old before kept.comments new e };

    ghost refuses_script = { λ pass old before kept new e. RefusesScript C.moved moves_for pass.comments old before kept.comments new e };

    /// Takes every pair of parentheses off a program, and sets those that are due (ECMA-262, 13 to 16). The comments of the
    /// pairs that are not set again move once the program is done, from the last pair of the source to the first.
    ///
    /// # Errors
    ///
    /// `TypesLeft` exactly where declarations of types stand in the program, and else `NotAssignable` exactly where a
    /// parenthesised assignment target, pairs and sequences of one item taken off, is no identifier, member or property of
    /// `super`; these are looked for first and take no memory. `NoMemory` where memory or a move is refused. The program is
    /// then empty, with its span and no `#!` line. A beginning of the moves may have been made, but none where the error is
    /// `TypesLeft` or `NotAssignable`.
    fn visit_mut_module(
        &mut self,
        alloc: Global,
        globals: &mut Globals,
        program: &mut Module,
    ) -> Result<(), PassError>
        ensures done { OnOk result (Fixes C.moved self.old.comments globals.old program.old self.new.comments globals.new program.new) }
        ensures promises { OnOk result (Promises (module_node program.old) (module_node program.new)) }
        ensures refused { OnErr result (IsEmptied program.old program.new) }
        ensures marks { IsExtended globals.old globals.new }
        ensures cause { IfErr result (Refuses C.moved moves_for self.old.comments globals.old program.old self.new.comments globals.new) }
    {
        if types_in_module(program) {
            *program = empty_module(alloc, program.span);
            return Err(PassError::TypesLeft);
        }
        self.fix_module(alloc, globals, program)
    }

    /// Takes every pair of parentheses off a program of the goal Script, as `visit_mut_module` off one of the goal
    /// Module.
    ///
    /// # Errors
    ///
    /// Those of `visit_mut_module`.
    fn visit_mut_script(
        &mut self,
        alloc: Global,
        globals: &mut Globals,
        program: &mut Script,
    ) -> Result<(), PassError>
        ensures done { OnOk result (FixesScript C.moved self.old.comments globals.old program.old self.new.comments globals.new program.new) }
        ensures promises { OnOk result (Promises (script_node program.old) (script_node program.new)) }
        ensures refused { OnErr result (IsEmptiedScript program.old program.new) }
        ensures marks { IsExtended globals.old globals.new }
        ensures cause { IfErr result (RefusesScript C.moved moves_for self.old.comments globals.old program.old self.new.comments globals.new) }
    {
        if types_in_script(program) {
            *program = empty_script(alloc, program.span);
            return Err(PassError::TypesLeft);
        }
        self.fix_script(alloc, globals, program)
    }
}
