//! The verdict on two programs of one goal.
ghost use Rattle.std.specs.Prelude.{◌≡◌, ◌||◌, true, IfOk, IfErr, IsErrOf};
ghost use Rattle.swc_tree_marks.specs.declared.error.PassError.TheVariants as error;
ghost use Rattle.swc_tree_scoping.specs.WellScoped.{IsClean};
ghost use Rattle.swc_tree_spaces.specs.Spaces.{has_types};
ghost use Rattle.swc_base_alpha.specs.Verdict.{HasPaths, IsJudgeRefusal, IsThere, Tells};

use crate::judged::Judged;
use std::alloc::Global;
use swc_base_alpha::{Cause, Difference, Unplaced, Verdict, difference, why_different};
use swc_tree::{NoMemory, PassError};

// Where a cause shows, in copies of two programs.
fn place<P: Judged>(
    alloc: Global,
    cause: Cause,
    before: &P,
    after: &P,
) -> Result<Difference, NoMemory>
    ensures why { IfOk result (λ d. d.why ≡ cause.why) }
    ensures before { IfOk result (λ d. IsThere (P.node before.now) d.before.items) }
    ensures after { IfOk result (λ d. IsThere (P.node after.now) d.after.items) }
{
    let first = before.to_node(alloc)?;
    let second = after.to_node(alloc)?;
    difference(alloc, cause, &first, &second)
}

/// What is said of two programs. Each is copied, and once more where they differ.
///
/// # Errors
///
/// Those of `judge`.
pub fn judge_programs<P: Judged>(
    alloc: Global,
    keep_top: bool,
    before: &P,
    after: &P,
) -> Result<Verdict, PassError>
    ensures verdict { IsClean (P.node before.now) → IsClean (P.node after.now) → IfOk result (Tells keep_top (P.node before.now) (P.node after.now)) }
    ensures paths { IfOk result (HasPaths (P.node before.now) (P.node after.now)) }
    ensures types { (has_types (P.node before.now) || has_types (P.node after.now)) ≡ true → IsErrOf result error.TypesLeft }
    ensures refusal { IfErr result (IsJudgeRefusal (P.node before.now) (P.node after.now)) }
{
    if before.have_types() || after.have_types() {
        return Err(PassError::TypesLeft);
    }
    let first = before.to_node(alloc)?;
    let second = after.to_node(alloc)?;
    match why_different(alloc, keep_top, Unplaced::IsUnknown, first, second)? {
        None => Ok(Verdict::Same),
        Some(cause) => Ok(Verdict::Differs(place::<P>(alloc, cause, before, after)?)),
    }
}
