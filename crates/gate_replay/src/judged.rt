//! Rows of the judge's calls on `Module` and `Script`: two versions, and the verdict on them.
ghost use Rattle.swc_tree_node.specs.declared.slot.Slot.TheVariants.{One};
ghost use Rattle.swc_tree_node.specs.declared.slot.Content.TheVariants.{Node as Of};
ghost use Rattle.swc_tree_node.specs.Fits.{Fits};

use crate::programs::class_of;
use anyhow::{Result, bail};
use gate_rows::Program;
use jsbase_reader::{Versions, read_versions};
use std::alloc::{AllocError, Global};
use std::fmt::Write;
use swc_base_judge::{Verdict, judge_module, judge_script};
use swc_tree::PassError;
use swc_tree_node::{Class, Node};

// A verdict, or the name of a refusal.
fn told(alloc: Global, answer: Result<Verdict, PassError>) -> Result<String, AllocError> {
    match answer {
        Ok(verdict) => Ok(format!(in alloc; "{verdict:?}")?),
        Err(error) => Ok(format!(in alloc; "refused: {}", error.name())?),
    }
}

fn program(class: Class, tree: Node) -> Result<Program>
    requires { Fits tree (One (Of class)) }
{
    match Program::open(class, tree) {
        Some(program) => Ok(program),
        None => bail!("a program is a module or a script"),
    }
}

// What is said of two programs.
fn judged(alloc: Global, keep_top: bool, before: &Program, after: &Program) -> Result<String> {
    match (before, after) {
        (Program::Module(before), Program::Module(after)) => {
            Ok(told(alloc, judge_module(alloc, keep_top, before, after))?)
        }
        (Program::Script(before), Program::Script(after)) => {
            Ok(told(alloc, judge_script(alloc, keep_top, before, after))?)
        }
        _ => bail!("the versions are of two goals"),
    }
}

/// What is said of the two versions of a line, each of the goal.
pub fn answer(alloc: Global, goal: &str, input: &str) -> Result<String> {
    let class = class_of(goal)?;
    let Ok(versions) = read_versions(alloc, class, input.as_bytes()) else {
        bail!("a line has no two versions of such a program, or memory was refused");
    };
    let Versions {
        keep_top,
        before,
        after,
        ..
    } = versions;
    let before = program(class, before)?;
    let after = program(class, after)?;
    judged(alloc, keep_top, &before, &after)
}
