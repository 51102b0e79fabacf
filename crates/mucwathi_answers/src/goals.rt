//! As what a text is read.
ghost use Rattle.std.specs.Prelude.{◌≡◌, ◌⊎◌};
ghost use Rattle.std.specs.Option.{option_or};
ghost use Rattle.mucwathi_answers.specs.Answers as spec;
ghost use Rattle.mucwathi_answers.specs.Answers.{IsGoalOf};

use mucwathi_commands::{Goal, RunFault};
use mucwathi_looks::Named;
use text_source::TextFault;

// As what a text is read, by whether the name of its file ends as those of modules, or as those of scripts; none where both are open.
fn goal_by(is_module: bool, is_script: bool) -> Option<Goal>
    ensures { result ≡ spec.goal_by is_module is_script }
{
    if is_module {
        return Some(Goal::Module);
    }
    if is_script {
        return Some(Goal::Script);
    }
    None
}

fn goal_named(name: &str) -> Option<Goal>
    ensures { result ≡ spec.goal_named name.now }
{
    let bytes = name.as_bytes();
    let is_module = bytes.ends_with(b".mjs");
    let is_script = bytes.ends_with(b".cjs");
    goal_by(is_module, is_script)
}

/// As what a text is read: as what was asked, or else by its file's name; none where both are open.
pub(crate) fn goal_asked(given: Option<Goal>, of: Named<'_>) -> Option<Goal>
    ensures { result ≡ spec.goal_asked given of.entry }
{
    match given {
        Some(goal) => Some(goal),
        None => goal_named(of.name),
    }
}

/// As what one of two texts is read: as what it is to be read, or else as the other is to be; this one where both are open.
pub(crate) fn goal_of_two(own: Option<Goal>, other: Option<Goal>, fallback: Goal) -> Goal
    ensures { IsGoalOf (option_or own other) result }
{
    own.or(other).unwrap_or(fallback)
}

// How far a text was read.
pub(crate) fn reach(fault: &TextFault) -> usize {
    fault.at().unwrap_or(usize::MAX)
}

/// Whether a text that was not read as a script is to be read as a module.
pub(crate) fn may_be_module(fault: &RunFault) -> bool {
    match fault {
        RunFault::Text(fault) => fault.at().is_some(),
        _ => false,
    }
}

/// The fault to tell of a text that is read neither as a script nor as a module: that which is further behind.
pub(crate) fn further(first: RunFault, second: RunFault) -> RunFault
    ensures { (result ≡ first) ⊎ (result ≡ second) }
{
    match (&first, &second) {
        (RunFault::Text(one), RunFault::Text(other)) if reach(one) > reach(other) => first,
        _ => second,
    }
}
