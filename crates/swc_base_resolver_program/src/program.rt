//! Resolving a program.
ghost use Rattle.std.specs.Prelude.{◌≡◌, ℕ, ◌+◌, ◌-◌, ◌<◌, ◌≤◌, IfOk, IfErr, IsErrOf};
ghost use Rattle.swc_tree_marks.specs.Globals.{greatest, with_fresh_marks};
ghost use Rattle.swc_tree_node.specs.declared.slot.Slot.{Slot as Slot'};
ghost use Rattle.swc_tree_node.specs.Fits.{fits};
ghost use Rattle.swc_tree_scoping.specs.Places.{opened, program_place};
ghost use Rattle.swc_tree_scoping.specs.Scopes.{scope_count};
ghost use Rattle.swc_tree_scoping.specs.Resolved.{Resolved};
ghost use Rattle.swc_tree_spaces.specs.NoTypes.{NoTypes};
ghost use Rattle.swc_tree_spaces.specs.Spaces.{ResolvedBy};
ghost use Rattle.swc_base_resolver_program.specs.Marked.{IsRefusal, MarksOk, OnlyContexts};

use crate::collect::{Stage, gather_program, gather_reached};
use crate::lookup::{Declarations, TakenNames};
use crate::marks::marks_of;
use crate::walk::{Answers, is_script, write_contexts};
use std::alloc::Global;
use swc_tree_marks::{Globals, Mark, PassError};
use swc_tree_node::Node;
use swc_tree_scoping::Scope;
use swc_tree_spaces_laws::resolved_alike_without_types;

/// Gives each identifier of a program, the node of a `Module`, the one mark of the scope that it is declared in
/// or means. The program has the top mark, each other scope a fresh one under it, in the order in which they
/// begin, and a name that no scope declares has the unresolved mark.
///
/// Names are those of values and those of types. A reference means a value; a type reference a type, and without one a value; what is
/// exported by its name a value, and without one a type. A value and a type of one text in one scope have one mark. In a program
/// without declarations of types and types it is what values alone say.
///
/// An identifier that has marks keeps them, and declares nothing. The tree is changed in place: only contexts, the
/// marks of the scopes and the names that they declare take memory. It costs three walks over the tree, or two where
/// no scope takes a variable or a plain function of sloppy code in a block; and in the last one two look-ups, at
/// most, for each reference and each scope round it, and a third for type references and for what is exported and no value.
///
/// # Errors
///
/// `PassError::MarksSpent` where the table has no room for the fresh marks, and `PassError::NoMemory`. The table
/// then holds what it held, and perhaps the first of the fresh marks.
pub fn resolve_program(
    alloc: Global,
    globals: &mut Globals,
    unresolved: Mark,
    top: Mark,
    program: Node,
) -> Result<Node, PassError>
    ensures resolved { opened program_place program ≡ Some Scope.Program → MarksOk globals.old unresolved top → IfOk result (λ answer. ResolvedBy unresolved top globals.old globals.new program answer) }
    ensures by_values { NoTypes program → opened program_place program ≡ Some Scope.Program → MarksOk globals.old unresolved top → IfOk result (λ answer. Resolved unresolved top globals.old globals.new program answer) }
    ensures contexts { IfOk result (λ answer. OnlyContexts program answer) }
    ensures place { (s : Slot') → IfOk result (λ answer. fits answer s ≡ fits program s) }
    ensures table { (fresh : ℕ) × (fresh ≤ scope_count program_place program - 1) × (globals.new ≡ with_fresh_marks globals.old top fresh) }
    ensures gained { IfOk result (λ _. globals.new ≡ with_fresh_marks globals.old top (scope_count program_place program - 1)) }
    ensures refusal { IfErr result IsRefusal }
    ensures spent { IsErrOf result PassError.MarksSpent → 4294967295 < greatest globals.old + (scope_count program_place program - 1) }
{
    resolved_alike_without_types();
    let bound = gather_program(alloc, Stage::Bind, &program, 0)?;
    let bound_names = bound.as_slice();
    let scope_count = bound_names.len();
    let bound = TakenNames::new(bound_names);
    let reached = gather_reached(alloc, bound, &program, scope_count)?;
    let reached_names = reached.as_slice();
    let reached = TakenNames::new(reached_names);
    let marks = marks_of(alloc, globals, top, scope_count)?;
    let answers = Answers {
        marks: marks.as_slice(),
        declarations: Declarations { bound, reached },
        unresolved,
        is_script: is_script(&program),
    };
    let answer = write_contexts(program, &answers)?;
    Ok(answer)
}
