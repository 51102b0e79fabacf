//! What is said of two texts.
ghost use Rattle.std.specs.Prelude.{◌≡◌, ◌⊎◌, codes, IfOk, MatchResult};
ghost use Rattle.mucwathi_looks.specs.Reports.{IsDifferenceReport};
ghost use Rattle.mucwathi_commands.specs.Judged.{IsJudgeFault, IsJudged};
ghost use Rattle.mucwathi_answers.specs.Answers.{IsVerdict, IsVerdictFault, SaysFault, SaysVerdict, TellsVerdict, rules_for};

use crate::answer::{Answer, DEPTH};
use crate::goals::{goal_asked, goal_of_two, reach as reach_of};
use mucwathi_arguments::Judging;
use mucwathi_commands::{Goal, JudgeFault, NamedText, Rules, TextDifference, judge_texts};
use mucwathi_looks::{Named, status_of_judging, tell_difference, tell_judge_fault};
use std::alloc::{AllocError, Global};

// How far two texts were read.
fn reach(fault: &JudgeFault) -> (bool, usize) {
    match fault {
        JudgeFault::Before(fault) => (false, reach_of(fault)),
        JudgeFault::After(fault) => (true, reach_of(fault)),
        JudgeFault::Refused(_) => (true, usize::MAX),
    }
}

// The fault to tell of two: that which is further behind.
fn further(first: JudgeFault, second: JudgeFault) -> JudgeFault
    ensures { (result ≡ first) ⊎ (result ≡ second) }
{
    if reach(&first) <= reach(&second) {
        second
    } else {
        first
    }
}

// Whether texts that were not read so are to be read as modules.
fn may_be_modules(
    fault: &JudgeFault,
    asked: Option<Goal>,
    before: Named<'_>,
    after: Named<'_>,
) -> bool {
    match fault {
        JudgeFault::Before(fault) | JudgeFault::After(fault) => {
            let given = goal_asked(asked, before).or(goal_asked(asked, after));
            given.is_none() && fault.at().is_some()
        }
        JudgeFault::Refused(_) => false,
    }
}

// By what the texts are judged.
fn rules_of(task: &Judging<'_>) -> Rules
    ensures { result ≡ rules_for task.now }
{
    Rules {
        depth: DEPTH,
        keep_top: task.keep_top,
        spelling: task.spelling,
    }
}

// What is said of two texts, read as the goals have it.
fn judge_as(
    alloc: Global,
    task: &Judging<'_>,
    before: Named<'_>,
    after: Named<'_>,
    first: Goal,
    second: Goal,
) -> Result<Option<TextDifference>, JudgeFault>
    ensures { MatchResult result (IsJudged (rules_for task.now) first before.entry.text.now second after.entry.text.now) (IsJudgeFault task.now.spelling first before.entry.text.now second after.entry.text.now) }
{
    judge_texts(
        alloc,
        &rules_of(task),
        &NamedText {
            goal: first,
            text: before.text,
        },
        &NamedText {
            goal: second,
            text: after.text,
        },
    )
}

// The same, where goals that are both open are this one.
fn judge_by(
    alloc: Global,
    task: &Judging<'_>,
    before: Named<'_>,
    after: Named<'_>,
    fallback: Goal,
) -> Result<Option<TextDifference>, JudgeFault>
    ensures { MatchResult result (IsVerdict task.now before.entry after.entry) (IsVerdictFault task.now before.entry after.entry) }
{
    let one = goal_asked(task.goal, before);
    let other = goal_asked(task.goal, after);
    let first = goal_of_two(one, other, fallback);
    let second = goal_of_two(other, one, fallback);
    judge_as(alloc, task, before, after, first, second)
}

// The same as modules, where the texts were not read as scripts; of two faults that which is further behind.
fn judge_as_modules(
    alloc: Global,
    task: &Judging<'_>,
    before: Named<'_>,
    after: Named<'_>,
    fault: JudgeFault,
) -> Result<Option<TextDifference>, JudgeFault>
    requires { IsVerdictFault task.now before after fault }
    ensures { MatchResult result (IsVerdict task.now before.entry after.entry) (IsVerdictFault task.now before.entry after.entry) }
{
    match judge_by(alloc, task, before, after, Goal::Module) {
        Ok(said) => Ok(said),
        Err(other) => Err(further(fault, other)),
    }
}

// What is said of two texts, where it is open as what they are read: as scripts where both are, and else as modules.
fn judge(
    alloc: Global,
    task: &Judging<'_>,
    before: Named<'_>,
    after: Named<'_>,
) -> Result<Option<TextDifference>, JudgeFault>
    ensures { MatchResult result (IsVerdict task.now before.entry after.entry) (IsVerdictFault task.now before.entry after.entry) }
{
    match judge_by(alloc, task, before, after, Goal::Script) {
        Ok(said) => Ok(said),
        Err(fault) => {
            if may_be_modules(&fault, task.goal, before, after) {
                judge_as_modules(alloc, task, before, after, fault)
            } else {
                Err(fault)
            }
        }
    }
}

// That they are not the same, and where.
fn differing(
    alloc: Global,
    before: Named<'_>,
    after: Named<'_>,
    difference: &TextDifference,
) -> Result<Answer, AllocError>
    ensures { IfOk result (λ a. (a.status ≡ 1) × IsDifferenceReport before.entry after.entry difference.now a.out.items) }
{
    let out = tell_difference(alloc, before, after, difference)?;
    Ok(Answer {
        out,
        map: Vec::new(alloc),
        told: Vec::new(alloc),
        status: 1,
    })
}

// Why nothing is said.
fn unjudged(
    alloc: Global,
    before: Named<'_>,
    after: Named<'_>,
    fault: &JudgeFault,
) -> Result<Answer, AllocError>
    ensures { IfOk result (SaysFault before.entry after.entry fault.now) }
{
    let told = tell_judge_fault(alloc, before, after, fault)?;
    Ok(Answer::told(alloc, told, status_of_judging(fault)))
}

// That they are the same.
fn same(alloc: Global) -> Result<Answer, AllocError>
    ensures { IfOk result (λ a. (a.status ≡ 0) × (a.out.items ≡ codes "the same\n")) }
{
    let out = Vec::from_slice(alloc, b"the same\n")?;
    Ok(Answer::of(alloc, out))
}

// What is said.
fn told(
    alloc: Global,
    before: Named<'_>,
    after: Named<'_>,
    said: Option<TextDifference>,
) -> Result<Answer, AllocError>
    ensures { IfOk result (SaysVerdict before.entry after.entry said) }
{
    match said {
        None => same(alloc),
        Some(difference) => differing(alloc, before, after, &difference),
    }
}

/// Whether two texts are the same program but for names: status 0 only if they are, 1 only if not, and another only by a fault.
pub fn answer_judging(
    alloc: Global,
    task: &Judging<'_>,
    before: Named<'_>,
    after: Named<'_>,
) -> Result<Answer, AllocError>
    ensures { IfOk result (TellsVerdict task.now before.entry after.entry) }
{
    match judge(alloc, task, before, after) {
        Ok(said) => told(alloc, before, after, said),
        Err(fault) => unjudged(alloc, before, after, &fault),
    }
}
