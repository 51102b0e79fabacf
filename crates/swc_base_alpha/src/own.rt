//! The judge's own marks.
ghost use Rattle.std.specs.Prelude.{◌≡◌, ◌⊎◌, Some, IfOk, IfErr};
ghost use Rattle.swc_tree_marks.specs.declared.error.PassError.TheVariants as error;
ghost use Rattle.swc_tree_scoping.specs.declared.places.Scope.TheVariants as scope;
ghost use Rattle.swc_tree_scoping.specs.Places.{opened, program_place};
ghost use Rattle.swc_tree_spaces.specs.NoTypes.{NoTypes};
ghost use Rattle.swc_base_rename_laws.specs.NewNames.{outline};
ghost use Rattle.swc_base_alpha.specs.Judged.{IsOwnAnswer, own_table};
ghost use Rattle.swc_base_alpha.specs.Verdict.{HasTooManyScopes};

use std::alloc::Global;
use swc_base_resolver_program::resolve_program;
use swc_tree_marks::{Globals, Mark, NoMemory, PassError};
use swc_tree_node::Node;

// The judge's own table: a mark for free names, and one for the program's own scope.
fn own_marks(alloc: Global) -> Result<Globals, NoMemory>
    ensures { IfOk result (λ globals. globals ≡ own_table) }
{
    match Globals::from_table(alloc, &[(1, 0), (2, 0)]) {
        Ok(globals) => Ok(globals),
        // No row is bad, so memory was refused.
        Err(_) => Err(NoMemory),
    }
}

/// A normal form, resolved with marks of the judge's own.
///
/// # Errors
///
/// `NoMemory`, and `MarksSpent` where it has more scopes than there are marks for.
pub fn resolved(alloc: Global, normal: Node) -> Result<Node, PassError>
    ensures resolved { NoTypes normal → opened program_place normal ≡ Some scope.Program → IfOk result (IsOwnAnswer normal) }
    ensures outline { IfOk result (λ answer. outline answer ≡ outline normal) }
    ensures refusal { IfErr result (λ e. (e ≡ error.NoMemory) ⊎ ((e ≡ error.MarksSpent) × HasTooManyScopes normal)) }
{
    let mut globals = own_marks(alloc)?;
    let unresolved = Mark::from_u32(1);
    let top = Mark::from_u32(2);
    resolve_program(alloc, &mut globals, unresolved, top, normal)
}
