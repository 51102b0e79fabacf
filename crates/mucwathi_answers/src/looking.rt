//! What is told of a text.
ghost use Rattle.std.specs.Prelude.{◌≡◌, None, IfOk, MatchResult};
ghost use Rattle.text_parser.specs.declared.programs.Goal.TheVariants as kinds;
ghost use Rattle.mucwathi_lists.specs.Listed.{names_listed};
ghost use Rattle.mucwathi_looks.specs.Looks.{IsUnlooked};
ghost use Rattle.mucwathi_looks.specs.Trees.{HasTree};
ghost use Rattle.mucwathi_answers.specs.Answers.{HasNameList, IsAsked, IsLooked, IsMemoryFault, IsShowFault, IsShown, IsUnshown, Shows, goal_asked as is_asked};

use crate::answer::{Answer, DEPTH};
use crate::goals::{further, goal_asked, may_be_module};
use mucwathi_arguments::View;
use mucwathi_commands::{Goal, RunFault};
use mucwathi_lists::{FreeName, list_names};
use mucwathi_looks::{Named, free_names, mark_text, show_text, tree_of_text};
use std::alloc::{AllocError, Global};
use swc_tree_marks::PassError;

fn tree(alloc: Global, of: Named<'_>, goal: Goal) -> Result<Vec<u8>, RunFault>
    ensures { MatchResult result (λ out. HasTree goal of.entry.text.now out.items) (IsUnlooked goal of.entry.text.now) }
{
    match tree_of_text(alloc, goal, DEPTH, of.text) {
        Ok(json) => Ok(json.into_bytes()),
        Err(fault) => Err(fault),
    }
}

fn list(alloc: Global, of: Named<'_>, names: &[FreeName]) -> Result<Vec<u8>, RunFault>
    ensures { MatchResult result (λ out. out.items ≡ names_listed of.entry.text.now names.now) IsMemoryFault }
{
    match list_names(alloc, of.text, names) {
        Ok(out) => Ok(out),
        Err(_) => Err(RunFault::Refused(PassError::NoMemory)),
    }
}

fn names(alloc: Global, of: Named<'_>, goal: Goal) -> Result<Vec<u8>, RunFault>
    ensures { MatchResult result (λ out. HasNameList goal of.entry.text.now out.items) (IsUnlooked goal of.entry.text.now) }
{
    match free_names(alloc, goal, DEPTH, of.text) {
        Ok(names) => list(alloc, of, names.as_slice()),
        Err(fault) => Err(fault),
    }
}

// What is told of a text that is read as the goal has it.
fn work_as(alloc: Global, view: View, of: Named<'_>, goal: Goal) -> Result<Vec<u8>, RunFault>
    ensures { MatchResult result (λ out. Shows view goal of.entry out.items) (IsUnshown view goal of.entry.text.now) }
{
    match view {
        View::Marks => mark_text(alloc, goal, DEPTH, of.text),
        View::Tree => tree(alloc, of, goal),
        View::Page => show_text(alloc, goal, DEPTH, of.name, of.text),
        View::Names => names(alloc, of, goal),
    }
}

// The same as a module, where the text was not read as a script.
fn work_as_module(
    alloc: Global,
    view: View,
    goal: Option<Goal>,
    of: Named<'_>,
    fault: RunFault,
) -> Result<Vec<u8>, RunFault>
    requires asked { IsAsked goal of kinds.Module }
    requires told { IsShowFault view goal of fault }
    ensures { MatchResult result (λ out. IsShown view goal of.entry out.items) (IsShowFault view goal of.entry) }
{
    match work_as(alloc, view, of, Goal::Module) {
        Ok(out) => Ok(out),
        Err(other) => Err(further(fault, other)),
    }
}

// The same where it is open as what it is read: as a script where it is one, and else as a module.
fn work_open(
    alloc: Global,
    view: View,
    goal: Option<Goal>,
    of: Named<'_>,
) -> Result<Vec<u8>, RunFault>
    requires { is_asked goal of ≡ None }
    ensures { MatchResult result (λ out. IsShown view goal of.entry out.items) (IsShowFault view goal of.entry) }
{
    match work_as(alloc, view, of, Goal::Script) {
        Ok(out) => Ok(out),
        Err(fault) => {
            if may_be_module(&fault) {
                work_as_module(alloc, view, goal, of, fault)
            } else {
                Err(fault)
            }
        }
    }
}

fn work_on(
    alloc: Global,
    view: View,
    goal: Option<Goal>,
    of: Named<'_>,
) -> Result<Vec<u8>, RunFault>
    ensures { MatchResult result (λ out. IsShown view goal of.entry out.items) (IsShowFault view goal of.entry) }
{
    match goal_asked(goal, of) {
        Some(asked) => work_as(alloc, view, of, asked),
        None => work_open(alloc, view, goal, of),
    }
}

/// What is told of a text: with status 0 what was asked for; with another nothing is written, and the status is that of a fault, which
/// tells of the text.
pub fn answer_looking(
    alloc: Global,
    view: View,
    goal: Option<Goal>,
    of: Named<'_>,
) -> Result<Answer, AllocError>
    ensures { IfOk result (IsLooked view goal of.entry) }
{
    match work_on(alloc, view, goal, of) {
        Ok(out) => Ok(Answer::of(alloc, out)),
        Err(fault) => Answer::fault(alloc, of, &fault),
    }
}
