//! Helpers whose bodies go into the program.
ghost use Rattle.std.specs.Prelude.{◌≡◌, ℕ, ◌+◌, ◌<◌, ◌≤◌, Some, None, IfOk, IfErr, IsErrOf};
ghost use Rattle.swc_tree_marks.specs.Globals.{greatest, with_fresh_marks};
ghost use Rattle.swc_tree_node.specs.declared.kind.Kind.{Kind as Kind'};
ghost use Rattle.swc_tree_node.specs.declared.kind.Class.TheVariants as class;
ghost use Rattle.swc_tree_node.specs.declared.slot.Content.TheVariants as content;
ghost use Rattle.swc_tree_node.specs.declared.slot.Slot.{Slot as Slot'};
ghost use Rattle.swc_tree_node.specs.declared.slot.Slot.TheVariants as slot;
ghost use Rattle.swc_tree_node.specs.Fits.{AllFit, Fits};
ghost use Rattle.swc_base_resolver_program.specs.Marked.{IsRefusal, MarksOk};
ghost use Rattle.swc_base_tables_injection.specs.Bodies.{program_kind as is_program_kind};
ghost use Rattle.swc_base_tables_injection.specs.Alone.{IsInjected, MarkedAlone, ResolvedAlone, all_bodies, is_strict_program as is_strictly, scopes_of};

use crate::alone::{is_strict_program, resolve_alone};
use crate::body::{program_kind, put_in};
use std::alloc::Global;
use swc_tree_items::Items;
use swc_tree_marks::{Globals, Mark, PassError};
use swc_tree_node::Node;

/// The program with the bodies of helpers in it, behind its leading string statements.
///
/// The bodies are resolved as one list, in a program of the kind and strictness of this one: what they declare at the top has
/// the helper mark, what they declare in scopes of their own fresh marks under it, and free names have the global mark.
///
/// A program that fits its place still does, where the bodies are statements.
///
/// # Errors
///
/// `PassError::MarksSpent` where the table has no room for a mark for each scope of the bodies, and `PassError::NoMemory`.
/// The program is then dropped, and the table holds what it held, and perhaps the first of the fresh marks.
pub fn inject_bodies(
    alloc: Global,
    globals: &mut Globals,
    helper: Mark,
    global: Mark,
    bodies: Items<Items<Node>>,
    program: Node,
) -> Result<Node, PassError>
    ensures injected { (k : Kind') → is_program_kind program ≡ Some k → MarksOk globals.old global helper → IfOk result (IsInjected (ResolvedAlone helper global globals.old globals.new k (is_strictly program)) bodies program) }
    ensures contexts { (k : Kind') → is_program_kind program ≡ Some k → IfOk result (IsInjected (MarkedAlone k (is_strictly program)) bodies program) }
    ensures other { is_program_kind program ≡ None → IfOk result (λ answer. answer ≡ program) }
    ensures fits { (s : Slot') → AllFit (slot.One (content.Node class.Stmt)) (all_bodies bodies) → Fits program s → IfOk result (λ answer. Fits answer s) }
    ensures table { (fresh : ℕ) × (fresh ≤ scopes_of program bodies) × (globals.new ≡ with_fresh_marks globals.old helper fresh) }
    ensures gained { IfOk result (λ _. globals.new ≡ with_fresh_marks globals.old helper (scopes_of program bodies)) }
    ensures refusal { IfErr result IsRefusal }
    ensures spent { IsErrOf result PassError.MarksSpent → 4294967295 < greatest globals.old + scopes_of program bodies }
{
    match program_kind(&program) {
        Some(kind) => {
            let strict = is_strict_program(&program);
            let statements = resolve_alone(alloc, globals, helper, global, kind, strict, bodies)?;
            let answer = put_in(program, statements)?;
            Ok(answer)
        }
        None => Ok(program),
    }
}
