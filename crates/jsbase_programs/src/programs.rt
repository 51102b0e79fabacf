//! Reading programs.
ghost use Rattle.std.specs.Prelude.{◌≡◌, Some, IfOk};
ghost use Rattle.swc_tree_node.specs.declared.slot.Content.{Content};
ghost use Rattle.swc_tree_node.specs.declared.slot.Slot.{Slot};
ghost use Rattle.swc_tree_node.specs.Fits.{Fits};
ghost use Rattle.swc_tree_scoping.specs.declared.places.Scope.TheVariants as scope;
ghost use Rattle.swc_tree_scoping.specs.Places.{opened, program_place};
ghost use Rattle.swc_base_resolver_program.specs.Marked.{MarksOk};
ghost use Rattle.jsbase_form.specs.Known.{MarksKnown};
ghost use Rattle.jsbase_reader.specs.Answers.{Gives};
ghost use Rattle.jsbase_reader.specs.Envelopes.{envelope_in_text};
ghost use Rattle.jsbase_programs.specs.Goals.{class_of as class_in};

use jsbase_reader::{Envelope, ReadError, read_bytes};
use std::alloc::Global;
use swc_tree_node::Class;

/// The goal symbol of a program (ECMA-262, Script and Module).
#[derive(Clone, Copy, Debug, PartialEq, Eq)]
pub enum Goal {
    Module,
    Script,
}

// The class of a program of the goal.
fn class_of(goal: Goal) -> Class
    ensures { result ≡ class_in goal }
{
    match goal {
        Goal::Module => Class::Module,
        Goal::Script => Class::Script,
    }
}

/// The envelope that a text is, whose tree is a program of the goal. Its tree is what a pass over programs takes, and its
/// two marks are marks of its table.
///
/// # Errors
///
/// Those of `read_bytes`.
pub fn read_program(alloc: Global, goal: Goal, bytes: &[u8]) -> Result<Envelope, ReadError>
    ensures envelope { Gives result (envelope_in_text (class_in goal) bytes.now) }
    ensures fits { IfOk result (λ e. Fits e.tree (Slot.One (Content.Node (class_in goal)))) }
    ensures known { IfOk result (λ e. MarksKnown e.globals e.tree) }
    ensures program { IfOk result (λ e. opened program_place e.tree ≡ Some scope.Program) }
    ensures marks { IfOk result (λ e. MarksOk e.globals e.unresolved e.top) }
{
    read_bytes(alloc, class_of(goal), bytes)
}
