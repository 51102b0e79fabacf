//! The calls for each goal.
ghost use Rattle.std.specs.Prelude.{◌≡◌, ◌||◌, true, IfOk, IfErr, IsErrOf};
ghost use Rattle.swc_tree_marks.specs.declared.error.PassError.TheVariants as error;
ghost use Rattle.swc_tree_modules.specs.Nodes.{module_node, script_node};
ghost use Rattle.swc_tree_scoping.specs.WellScoped.{IsClean};
ghost use Rattle.swc_tree_spaces.specs.Spaces.{has_types};
ghost use Rattle.swc_base_alpha.specs.Verdict.{HasPaths, IsJudgeRefusal, Tells};

use crate::judging::judge_programs;
use std::alloc::Global;
use swc_base_alpha::Verdict;
use swc_tree::{Module, PassError, Script};

/// Whether two modules are the same but for the choice of the names that they bind, and if not, why and where: `judge` of their nodes.
///
/// What is said is promised of modules in which no identifier has a context (`IsClean`), as they are before they are resolved. With
/// `keep_top` names of the module's own scope keep their texts besides. Paths lead from the node of a module (`module_node`).
///
/// # Errors
///
/// `TypesLeft` exactly where declarations of types stand in one of both. Else `NoMemory`, and `MarksSpent` where a normal form has more
/// scopes than there are marks for.
pub fn judge_module(
    alloc: Global,
    keep_top: bool,
    before: &Module,
    after: &Module,
) -> Result<Verdict, PassError>
    ensures verdict { IsClean (module_node before.now) → IsClean (module_node after.now) → IfOk result (Tells keep_top (module_node before.now) (module_node after.now)) }
    ensures paths { IfOk result (HasPaths (module_node before.now) (module_node after.now)) }
    ensures types { (has_types (module_node before.now) || has_types (module_node after.now)) ≡ true → IsErrOf result error.TypesLeft }
    ensures refusal { IfErr result (IsJudgeRefusal (module_node before.now) (module_node after.now)) }
{
    judge_programs::<Module>(alloc, keep_top, before, after)
}

/// The same of two programs of the goal Script, whose top names other scripts of a page see: `keep_top` asks that these stay.
///
/// # Errors
///
/// Those of `judge_module`.
pub fn judge_script(
    alloc: Global,
    keep_top: bool,
    before: &Script,
    after: &Script,
) -> Result<Verdict, PassError>
    ensures verdict { IsClean (script_node before.now) → IsClean (script_node after.now) → IfOk result (Tells keep_top (script_node before.now) (script_node after.now)) }
    ensures paths { IfOk result (HasPaths (script_node before.now) (script_node after.now)) }
    ensures types { (has_types (script_node before.now) || has_types (script_node after.now)) ≡ true → IsErrOf result error.TypesLeft }
    ensures refusal { IfErr result (IsJudgeRefusal (script_node before.now) (script_node after.now)) }
{
    judge_programs::<Script>(alloc, keep_top, before, after)
}
