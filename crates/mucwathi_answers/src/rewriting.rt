//! What is made of a text.
ghost use Rattle.std.specs.Prelude.{◌≡◌, ℕ, List, None, IfOk, MatchResult};
ghost use Rattle.text_parser.specs.declared.programs.Goal.TheVariants as kinds;
ghost use Rattle.mucwathi_commands.specs.Faults.{IsRunFault};
ghost use Rattle.mucwathi_commands.specs.Comments.{IsRewrittenWith};
ghost use Rattle.mucwathi_lists.specs.Listed.{changes_listed, lost_listed};
ghost use Rattle.mucwathi_looks.specs.Reports.{IsCoverReport};
ghost use Rattle.mucwathi_answers.specs.Answers.{HasExplanation, HasList, HasMap, IsAnswered, IsAsked, IsMemoryFault, IsTold, IsWell, IsWorked, IsWrittenOut, goal_asked as is_asked, keeps_top, memory_for as memory_of, order_for as order_of};
ghost use Rattle.mucwathi_answers.specs.Given.{IsAnsweredTo};

use crate::answer::{Answer, DEPTH};
use crate::giving::answer_given;
use crate::goals::{further, goal_asked, may_be_module};
use mucwathi_arguments::Rewriting;
use mucwathi_commands::{
    CoverGap, Goal, Memory, Order, RewrittenText, RunFault, Settings, cover_text,
    rewrite_with_comments,
};
use mucwathi_lists::{Change, list_renamed, tell_lost};
use mucwathi_looks::{Named, list_changes, source_map, tell_cover};
use std::alloc::{AllocError, Global};
use swc_tree_marks::PassError;

/// Whether names of the program's own scope stay: of a script, where nothing else was asked for.
pub(crate) fn does_keep_top(asked: Option<bool>, goal: Goal) -> bool
    ensures { result ≡ keeps_top asked goal }
{
    match asked {
        Some(keep) => keep,
        None => goal == Goal::Script,
    }
}

// Of one file the tree's memory is left to the process, which ends then.
fn memory_for(files: &[&str]) -> Memory
    ensures { result ≡ memory_of files.now }
{
    match files {
        [_, _, ..] => Memory::GivenBack,
        _ => Memory::Left,
    }
}

// What the passes go by, once it is known as what the text is read.
fn order_for(task: &Rewriting<'_>, goal: Goal) -> Order
    ensures { result ≡ order_of task.now goal }
{
    Order {
        command: task.command,
        goal,
        depth: DEPTH,
        settings: Settings {
            keep_top: does_keep_top(task.keep_top, goal),
            ..task.settings
        },
        style: task.style,
        memory: memory_for(task.files.as_slice()),
    }
}

fn list_of(alloc: Global, prefix: &str, text: &[u8], changes: &[Change]) -> Result<Answer, RunFault>
    ensures { MatchResult result (λ a. IsWell a × (a.out.items ≡ changes_listed prefix.now text.now changes.now)) IsMemoryFault }
{
    match list_renamed(alloc, prefix, text, changes) {
        Ok(out) => Ok(Answer::of(alloc, out)),
        Err(_) => Err(RunFault::Refused(PassError::NoMemory)),
    }
}

// The names that are given anew, in a list.
fn list(alloc: Global, order: &Order, prefix: &str, text: &[u8]) -> Result<Answer, RunFault>
    ensures { MatchResult result (λ a. IsWell a × HasList order.now prefix.now text.now a.out.items) (IsRunFault order.now text.now) }
{
    match list_changes(alloc, order, text) {
        Ok(changes) => list_of(alloc, prefix, text, changes.as_slice()),
        Err(fault) => Err(fault),
    }
}

// Whether the promise covers a text, as told.
fn explain(alloc: Global, order: &Order, of: Named<'_>) -> Result<Answer, RunFault>
    ensures { MatchResult result (λ a. IsWell a × HasExplanation order.now of.entry a.out.items) (IsRunFault order.now of.entry.text.now) }
{
    match cover_text(alloc, order.goal, order.depth, &order.settings, of.text) {
        Ok(gap) => explain_gap(alloc, of, gap),
        Err(fault) => Err(fault),
    }
}

fn explain_gap(alloc: Global, of: Named<'_>, gap: Option<CoverGap>) -> Result<Answer, RunFault>
    ensures { MatchResult result (λ a. IsWell a × IsCoverReport of.entry.name.now of.entry.text.now gap a.out.items) IsMemoryFault }
{
    match tell_cover(alloc, of, gap) {
        Ok(out) => Ok(Answer::of(alloc, out)),
        Err(_) => Err(RunFault::Refused(PassError::NoMemory)),
    }
}

// The source map of what was written, where one is asked for.
fn map_for(
    alloc: Global,
    task: &Rewriting<'_>,
    order: &Order,
    of: Named<'_>,
    out: &[u8],
) -> Result<Vec<u8>, RunFault>
    ensures { MatchResult result (λ map. HasMap task.now.map order.now of.entry out.now map.items) (IsRunFault order.now of.entry.text.now) }
{
    match task.map {
        None => Ok(Vec::new(alloc)),
        Some(_) => source_map(alloc, order, of.name, of.text, out),
    }
}

// What was written, its map, and what is told of comments that are not in it.
fn with_map(
    alloc: Global,
    task: &Rewriting<'_>,
    order: &Order,
    of: Named<'_>,
    out: Vec<u8>,
    told: Vec<u8>,
) -> Result<Answer, RunFault>
    requires { (lost : List ℕ) × IsRewrittenWith order.now of.text.now out.items lost × (told.items ≡ lost_listed of.name.now of.text.now lost) }
    ensures { MatchResult result (λ a. IsWell a × IsWrittenOut order.now task.now.map of.entry a) (IsRunFault order.now of.entry.text.now) }
{
    match map_for(alloc, task, order, of, out.as_slice()) {
        Ok(map) => Ok(Answer {
            out,
            map,
            told,
            status: 0,
        }),
        Err(fault) => Err(fault),
    }
}

fn with_told(
    alloc: Global,
    task: &Rewriting<'_>,
    order: &Order,
    of: Named<'_>,
    made: RewrittenText,
) -> Result<Answer, RunFault>
    requires { IsRewrittenWith order.now of.text.now made.out.items made.lost.items }
    ensures { MatchResult result (λ a. IsWell a × IsWrittenOut order.now task.now.map of.entry a) (IsRunFault order.now of.entry.text.now) }
{
    let RewrittenText { out, lost } = made;
    let places = lost.as_slice();
    match tell_lost(alloc, of.name, of.text, places) {
        Ok(told) => with_map(alloc, task, order, of, out, told),
        Err(_) => Err(RunFault::Refused(PassError::NoMemory)),
    }
}

fn rewrite(
    alloc: Global,
    task: &Rewriting<'_>,
    order: &Order,
    of: Named<'_>,
) -> Result<Answer, RunFault>
    ensures { MatchResult result (λ a. IsWell a × IsWrittenOut order.now task.now.map of.entry a) (IsRunFault order.now of.entry.text.now) }
{
    match rewrite_with_comments(alloc, order, of.text) {
        Ok(made) => with_told(alloc, task, order, of, made),
        Err(fault) => Err(fault),
    }
}

// What is answered where the text is read as the goal has it.
fn answer_as(
    alloc: Global,
    task: &Rewriting<'_>,
    prefix: &str,
    of: Named<'_>,
    goal: Goal,
) -> Result<Answer, RunFault>
    requires { IsAsked task.now.goal of goal }
    ensures { MatchResult result (IsWorked task.now prefix.now of.entry) (IsTold task.now of.entry) }
{
    let order = order_for(task, goal);
    if task.explains {
        return explain(alloc, &order, of);
    }
    if task.lists {
        return list(alloc, &order, prefix, of.text);
    }
    rewrite(alloc, task, &order, of)
}

// The same as a module, where the text was not read as a script.
fn answer_as_module(
    alloc: Global,
    task: &Rewriting<'_>,
    prefix: &str,
    of: Named<'_>,
    fault: RunFault,
) -> Result<Answer, RunFault>
    requires asked { IsAsked task.now.goal of kinds.Module }
    requires told { IsTold task.now of fault }
    ensures { MatchResult result (IsWorked task.now prefix.now of.entry) (IsTold task.now of.entry) }
{
    match answer_as(alloc, task, prefix, of, Goal::Module) {
        Ok(answer) => Ok(answer),
        Err(other) => Err(further(fault, other)),
    }
}

// The same where it is open as what it is read: as a script where it is one, and else as a module.
fn answer_open(
    alloc: Global,
    task: &Rewriting<'_>,
    prefix: &str,
    of: Named<'_>,
) -> Result<Answer, RunFault>
    requires { is_asked task.now.goal of ≡ None }
    ensures { MatchResult result (IsWorked task.now prefix.now of.entry) (IsTold task.now of.entry) }
{
    match answer_as(alloc, task, prefix, of, Goal::Script) {
        Ok(answer) => Ok(answer),
        Err(fault) => {
            if may_be_module(&fault) {
                answer_as_module(alloc, task, prefix, of, fault)
            } else {
                Err(fault)
            }
        }
    }
}

fn answer(
    alloc: Global,
    task: &Rewriting<'_>,
    prefix: &str,
    of: Named<'_>,
) -> Result<Answer, RunFault>
    ensures { MatchResult result (IsWorked task.now prefix.now of.entry) (IsTold task.now of.entry) }
{
    match goal_asked(task.goal, of) {
        Some(goal) => answer_as(alloc, task, prefix, of, goal),
        None => answer_open(alloc, task, prefix, of),
    }
}

// What is made of a text, as a text.
fn answer_text(
    alloc: Global,
    task: &Rewriting<'_>,
    prefix: &str,
    of: Named<'_>,
) -> Result<Answer, AllocError>
    ensures { IfOk result (IsAnswered task.now prefix.now of.entry) }
{
    match answer(alloc, task, prefix, of) {
        Ok(answer) => Ok(answer),
        Err(fault) => Answer::fault(alloc, of, &fault),
    }
}

/// What is made of a text, or told of it; each line of a list begins with the prefix. Where a program is given or is to be answered
/// otherwise than as a text, what is made of that.
///
/// With status 0 what is written is what was asked for (`IsRewrittenWith` of `mucwathi_commands`, `IsGivenAnswer`), or what is told in its
/// place. With another nothing is written, and the status is that of a fault, which tells of the text.
pub fn answer_rewriting(
    alloc: Global,
    task: &Rewriting<'_>,
    prefix: &str,
    of: Named<'_>,
) -> Result<Answer, AllocError>
    ensures { IfOk result (IsAnsweredTo task.now prefix.now of.entry) }
{
    if task.form.is_plain() {
        answer_text(alloc, task, prefix, of)
    } else {
        answer_given(alloc, &task.giving(), of)
    }
}
