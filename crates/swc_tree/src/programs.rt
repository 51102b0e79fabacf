//! Passes over the node of a program, each of which is a pass over programs.
ghost use Rattle.std.specs.Prelude.{◌≡◌, false, IfOk, IfErr};
ghost use Rattle.swc_tree_node.specs.declared.kind.Class.TheVariants as class;
ghost use Rattle.swc_tree_node.specs.declared.slot.Slot.TheVariants.{One};
ghost use Rattle.swc_tree_node.specs.declared.slot.Content.TheVariants.{Node as Of};
ghost use Rattle.swc_tree_node.specs.Fits.{Fits};
ghost use Rattle.swc_tree_marks.specs.declared.error.PassError.TheVariants as error;
ghost use Rattle.swc_tree_modules.specs.Nodes.{module_node, script_node};
ghost use Rattle.swc_tree.specs.Passes.{IsExtended, IsProgram};
ghost use Rattle.swc_tree.specs.Types.{IsDeclined, IsMade, refuses_types};

use crate::empty::{empty_module, empty_script};
use crate::pass::JsPass;
use crate::types::{types_in_module, types_in_script};
use std::alloc::Global;
use std::mem;
use swc_tree_handle::Opened;
use swc_tree_marks::{Globals, PassError};
use swc_tree_modules::{Module, Script};
use swc_tree_node::Node;

/// A pass over the node of a program, of either goal. It is a `JsPass`: the program is taken out, its node put together,
/// and what the pass makes of the node is put back.
///
/// As a `JsPass` it is refused a program with declarations of types, if it takes none, before anything else: by
/// `PassError::TypesLeft`, with the pass and the table as they were.
pub trait ProgramPass {
    ghost use Rattle.std.specs.Prelude.{Bool};
    ghost use Rattle.swc_tree_marks.specs.Globals.{Table};
    ghost use Rattle.swc_tree_marks.specs.declared.error.PassError.{PassError};
    ghost use Rattle.swc_tree_node.specs.declared.node.Node.{Node};

    /// Whether the pass takes programs in which declarations of types stand.
    ghost takes_types: { Bool };

    /// Whether the pass takes programs in which declarations of types stand.
    fn takes_types(&self) -> bool
        ensures { result ≡ takes_types };

    /// What the pass makes of a program: of the pass, the table of marks and the node before, and of the three after.
    ghost makes: { Self → Table → Node → Self → Table → Node → Type 0 };

    /// When the pass is refused, why, and what it leaves: of the pass, the table of marks and the node before, of the
    /// pass and the table after, and of the error.
    ghost declines: { Self → Table → Node → Self → Table → PassError → Type 0 };

    /// Runs the pass on the node of a program.
    ///
    /// # Errors
    ///
    /// As `declines` says, which also says what the pass and the table are then. The node is then dropped. The table of
    /// marks keeps what it has, and may have more.
    fn run(
        &mut self,
        alloc: Global,
        globals: &mut Globals,
        program: Node,
    ) -> Result<Node, PassError>
        requires program { IsProgram program }
        requires types { refuses_types takes_types program ≡ false }
        ensures done { IfOk result (λ answer. makes self.old globals.old program self.new globals.new answer) }
        ensures fits_module { Fits program (One (Of class.Module)) → IfOk result (λ answer. Fits answer (One (Of class.Module))) }
        ensures fits_script { Fits program (One (Of class.Script)) → IfOk result (λ answer. Fits answer (One (Of class.Script))) }
        ensures cause { IfErr result (declines self.old globals.old program self.new globals.new) }
        ensures marks { IsExtended globals.old globals.new };

    /// It may be refused for want of memory, with all as it was: so it is where its node cannot be put together.
    ghost lacks_memory: { (pass : Self) (table : Table) (program : Node) → declines pass table program pass table error.NoMemory };
}

// Whether a pass refuses a program for the declarations of types in it.
fn is_refused_types<P: ProgramPass>(pass: &P, program: &Module) -> bool
    ensures { result ≡ refuses_types P.takes_types (module_node program.now) }
{
    !pass.takes_types() && types_in_module(program)
}

// The same of a program of the goal Script.
fn is_script_refused_types<P: ProgramPass>(pass: &P, program: &Script) -> bool
    ensures { result ≡ refuses_types P.takes_types (script_node program.now) }
{
    !pass.takes_types() && types_in_script(program)
}

impl<P: ProgramPass> JsPass for P {
    ghost visits = { λ pass old before kept new after. IsMade (refuses_types P.takes_types (module_node before)) (P.makes pass old (module_node before) kept new (module_node after)) };

    ghost visits_script = { λ pass old before kept new after. IsMade (refuses_types P.takes_types (script_node before)) (P.makes pass old (script_node before) kept new (script_node after)) };

    ghost refuses = { λ pass old before kept new e. IsDeclined (refuses_types P.takes_types (module_node before)) pass old kept new e (P.declines pass old (module_node before) kept new e) };

    ghost refuses_script = { λ pass old before kept new e. IsDeclined (refuses_types P.takes_types (script_node before)) pass old kept new e (P.declines pass old (script_node before) kept new e) };

    fn visit_mut_module(
        &mut self,
        alloc: Global,
        globals: &mut Globals,
        program: &mut Module,
    ) -> Result<(), PassError> {
        if is_refused_types::<P>(&*self, program) {
            *program = empty_module(alloc, program.span);
            return Err(PassError::TypesLeft);
        }
        let module = mem::replace(program, empty_module(alloc, program.span));
        let node = module.into_node(alloc)?;
        let answer = self.run(alloc, globals, node)?;
        *program = Module::from_node(answer);
        Ok(())
    }

    fn visit_mut_script(
        &mut self,
        alloc: Global,
        globals: &mut Globals,
        program: &mut Script,
    ) -> Result<(), PassError> {
        if is_script_refused_types::<P>(&*self, program) {
            *program = empty_script(alloc, program.span);
            return Err(PassError::TypesLeft);
        }
        let script = mem::replace(program, empty_script(alloc, program.span));
        let node = script.into_node(alloc)?;
        let answer = self.run(alloc, globals, node)?;
        *program = Script::from_node(answer);
        Ok(())
    }
}
