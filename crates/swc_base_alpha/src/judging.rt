//! Whether two programs are one but for names, and if not, why.
ghost use Rattle.std.specs.Prelude.{◌≡◌, ◌||◌, ◌↔◌, true, false, IsTrue, IfOk, IfErr, IfSome, IsErrOf, map};
ghost use Rattle.swc_tree_marks.specs.declared.error.PassError.TheVariants as error;
ghost use Rattle.swc_tree_node.specs.declared.node.Node.{Node as Node'};
ghost use Rattle.swc_tree_scoping.specs.Places.{program_place};
ghost use Rattle.swc_tree_spaces.specs.Spaces.{has_types as stand_in};
ghost use Rattle.swc_tree_walk.specs.Sites.{site_of, sites as sites_in};
ghost use Rattle.swc_tree_grammar.specs.Normal.{normal_form as form};
ghost use Rattle.swc_base_rename_laws.specs.NewNames.{outline};
ghost use Rattle.swc_base_alpha.specs.Judged.{Concludes, IsOrdinary, IsOwnAnswer, IsRefused};
ghost use Rattle.swc_base_alpha.specs.Shown.{Shows};
ghost use Rattle.swc_base_alpha.specs.Verdict.{HasPaths, IsCleanProgram, IsJudgeRefusal, IsRead, IsUncaught, Tells, TellsWhy, word_in};

use crate::caught::is_caught;
use crate::cause::{cause_among, cause_of_shape};
use crate::differs::{Rules, sites_differ};
use crate::outline::same_outline;
use crate::own::resolved;
use crate::shown::difference;
use crate::spans::Unplaced;
use crate::verdict::{Cause, Verdict};
use std::alloc::{AllocError, Global};
use swc_base_normal_form::normal_form;
use swc_base_normal_form_laws::{
    normal_form_adds_no_types, normal_form_is_clean, normal_form_is_program,
};
use swc_base_rename_units::has_eval;
use swc_tree_has_types::has_types;
use swc_tree_marks::PassError;
use swc_tree_node::Node;
use swc_tree_spaces_laws::types_are_told;
use swc_tree_walk::{Site, sites};

// Whether a `var` or a function meets a catch parameter of its name in one of two programs that were resolved, each with its identifiers.
fn are_caught<'a>(
    alloc: Global,
    first: &Node,
    ones: &[Site<'a>],
    second: &Node,
    others: &[Site<'a>],
) -> Result<bool, AllocError>
    requires first { map site_of ones.now ≡ sites_in program_place first.now }
    requires second { map site_of others.now ≡ sites_in program_place second.now }
    ensures { (t s : Node') → IsOrdinary t → IsOrdinary s → IsOwnAnswer t first.now → IsOwnAnswer s second.now → IfOk result (λ caught. (caught ≡ false) ↔ IsUncaught t s) }
{
    if is_caught(alloc, first, ones)? {
        return Ok(true);
    }
    is_caught(alloc, second, others)
}

// Why two normal forms of one outline are not the same, if they are not.
fn names_differ(
    alloc: Global,
    keep_top: bool,
    unplaced: Unplaced,
    reads: bool,
    first: Node,
    second: Node,
) -> Result<Option<Cause>, PassError>
    requires { outline first ≡ outline second }
    ensures decides { IsOrdinary first → IsOrdinary second → IfOk result (λ cause. Concludes keep_top (IsTrue reads) first second (word_in cause)) }
    ensures shows { IsOrdinary first → IsOrdinary second → IfOk result (λ cause. IfSome cause (λ c. Shows unplaced first second c.why c.before c.after)) }
    ensures refusal { IfErr result (IsRefused first second) }
{
    let first = resolved(alloc, first)?;
    let second = resolved(alloc, second)?;
    let ones = sites(alloc, &first)?;
    let others = sites(alloc, &second)?;
    let caught = are_caught(alloc, &first, ones.as_slice(), &second, others.as_slice())?;
    let rules = Rules {
        keep_top,
        reads,
        caught,
    };
    let found = sites_differ(alloc, rules, ones.as_slice(), others.as_slice())?;
    let cause = cause_among(alloc, unplaced, found, ones.as_slice(), others.as_slice())?;
    Ok(cause)
}

// Why two normal forms are not the same, if they are not.
fn forms_differ(
    alloc: Global,
    keep_top: bool,
    unplaced: Unplaced,
    reads: bool,
    first: Node,
    second: Node,
) -> Result<Option<Cause>, PassError>
    ensures decides { IsOrdinary first → IsOrdinary second → IfOk result (λ cause. Concludes keep_top (IsTrue reads) first second (word_in cause)) }
    ensures shows { IsOrdinary first → IsOrdinary second → IfOk result (λ cause. IfSome cause (λ c. Shows unplaced first second c.why c.before c.after)) }
    ensures refusal { IfErr result (IsRefused first second) }
{
    if !same_outline(&first, &second) {
        return Ok(Some(cause_of_shape(unplaced, &first, &second)));
    }
    names_differ(alloc, keep_top, unplaced, reads, first, second)
}

fn have_types(before: &Node, after: &Node) -> bool
    ensures { result ≡ (stand_in before.now || stand_in after.now) }
{
    has_types(before) || has_types(after)
}

fn are_read(before: &Node, after: &Node) -> bool
    ensures { IsTrue result ↔ IsRead before.now after.now }
{
    has_eval(before) || has_eval(after)
}

// Why two programs without types are not the same, if they are not.
fn first_cause(
    alloc: Global,
    keep_top: bool,
    unplaced: Unplaced,
    before: Node,
    after: Node,
) -> Result<Option<Cause>, PassError>
    ensures decides { (stand_in before || stand_in after) ≡ false → IsCleanProgram before → IsCleanProgram after → IfOk result (λ cause. Concludes keep_top (IsRead before after) (form before) (form after) (word_in cause)) }
    ensures shows { (stand_in before || stand_in after) ≡ false → IsCleanProgram before → IsCleanProgram after → IfOk result (λ cause. IfSome cause (λ c. Shows unplaced (form before) (form after) c.why c.before c.after)) }
    ensures refusal { IfErr result (IsRefused (form before) (form after)) }
{
    normal_form_is_clean();
    normal_form_adds_no_types();
    normal_form_is_program();
    types_are_told();
    let reads = are_read(&before, &after);
    let first = normal_form(alloc, before)?;
    let second = normal_form(alloc, after)?;
    forms_differ(alloc, keep_top, unplaced, reads, first, second)
}

/// Why two programs are not the same but for the choice of the names that they bind, if they are not: the word of `judge`, and the
/// spans of what shows it.
///
/// Both are given up, so that neither is copied; `difference` tells where it shows to whoever has them still or again. Of programs that
/// were read from texts all has a place, and what has none in their normal forms is made (`Unplaced::IsMade`). It costs time in step
/// with the size of the programs but for the logarithm of how many ids they have.
///
/// # Errors
///
/// Those of `judge`.
pub fn why_different(
    alloc: Global,
    keep_top: bool,
    unplaced: Unplaced,
    before: Node,
    after: Node,
) -> Result<Option<Cause>, PassError>
    ensures why { IsCleanProgram before → IsCleanProgram after → IfOk result (λ cause. TellsWhy keep_top before after (word_in cause)) }
    ensures shows { IsCleanProgram before → IsCleanProgram after → IfOk result (λ cause. IfSome cause (λ c. Shows unplaced (form before) (form after) c.why c.before c.after)) }
    ensures types { (stand_in before || stand_in after) ≡ true → IsErrOf result error.TypesLeft }
    ensures refusal { IfErr result (IsJudgeRefusal before after) }
{
    if have_types(&before, &after) {
        return Err(PassError::TypesLeft);
    }
    let cause = first_cause(alloc, keep_top, unplaced, before, after)?;
    Ok(cause)
}

/// Whether two programs are the same but for the choice of the names that they bind, and if not, why and where.
///
/// With `keep_top` names of the program's own scope keep their texts besides, as other scripts of a page see them. Where a direct
/// `eval` or a `with` may read names in one of both, or a `var`, or a plain function in a block of sloppy code, meets a catch parameter of
/// its name, no name may have another text. Of several causes the first is told, in the order of `Why`; what names stand for is no cause
/// where a name is caught.
///
/// Both are copied, and their normal forms resolved with marks of the judge's own. It costs time in step with the size of the programs
/// but for the logarithm of how many ids they have. `why_different` copies nothing where the programs are not needed any more.
///
/// # Errors
///
/// `TypesLeft` exactly where types stand in one of both. Else `NoMemory`, and `MarksSpent` where a normal form has more scopes than there
/// are marks for.
pub fn judge(
    alloc: Global,
    keep_top: bool,
    before: &Node,
    after: &Node,
) -> Result<Verdict, PassError>
    ensures verdict { IsCleanProgram before.now → IsCleanProgram after.now → IfOk result (Tells keep_top before.now after.now) }
    ensures paths { IfOk result (HasPaths before.now after.now) }
    ensures types { (stand_in before.now || stand_in after.now) ≡ true → IsErrOf result error.TypesLeft }
    ensures refusal { IfErr result (IsJudgeRefusal before.now after.now) }
{
    if have_types(before, after) {
        return Err(PassError::TypesLeft);
    }
    let first = before.clone()?;
    let second = after.clone()?;
    let found = first_cause(alloc, keep_top, Unplaced::IsUnknown, first, second)?;
    match found {
        None => Ok(Verdict::Same),
        Some(cause) => Ok(Verdict::Differs(difference(alloc, cause, before, after)?)),
    }
}
