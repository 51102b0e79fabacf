//! Taking what a tool made of a module.
ghost use Rattle.std.specs.Prelude.{◌≡◌, ◌||◌, false, true, IfErr, IfOk, IsErrOf, MatchOption};
ghost use Rattle.swc_tree_marks.specs.declared.error.PassError.TheVariants as error;
ghost use Rattle.swc_tree_modules.specs.Nodes.{module_node};
ghost use Rattle.swc_tree_scoping.specs.WellScoped.{IsClean};
ghost use Rattle.swc_tree_spaces.specs.Spaces.{has_types};
ghost use Rattle.swc_base_alpha.specs.Verdict.{IsJudgeRefusal, IsSame};

use std::alloc::Global;
use swc_base_judge::{Verdict, judge_module};
use swc_tree::{Module, PassError};

/// What a tool made of a module, if that is the same program but for the names that it binds.
///
/// # Errors
///
/// Those of `judge_module`.
pub fn accepted(
    alloc: Global,
    source: &Module,
    renamed: Module,
) -> Result<Option<Module>, PassError>
    ensures accepted { IsClean (module_node source.now) → IsClean (module_node renamed) → IfOk result (λ answer. MatchOption answer (¬ IsSame false (module_node source.now) (module_node renamed)) (λ taken. (taken ≡ renamed) × IsSame false (module_node source.now) (module_node renamed))) }
    ensures types { (has_types (module_node source.now) || has_types (module_node renamed)) ≡ true → IsErrOf result error.TypesLeft }
    ensures refusal { IfErr result (IsJudgeRefusal (module_node source.now) (module_node renamed)) }
{
    match judge_module(alloc, false, source, &renamed)? {
        Verdict::Same => Ok(Some(renamed)),
        Verdict::Differs(_) => Ok(None),
    }
}
