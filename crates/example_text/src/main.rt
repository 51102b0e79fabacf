//! `example_text module|script read|tree|keep|lines|compact`: reads a JavaScript text from standard input, and writes its tree as JSON
//! (`tree`), itself, edited to be the text of its own tree, which changes nothing (`keep`), or its tree printed anew; under `read` it
//! writes nothing. A text that is none is refused with its line, its column and the cause.
#![tactic(auto)]

mod answer;

use answer::{Fault, Task, answer};
use anyhow::{Result, bail};
use std::env;
use std::io::{Read, Write};
use text_edit::EditFault;
use text_printer::{Layout, PrintFault};
use text_source::{Goal, locate};

fn goal_named(word: &str) -> Option<Goal> {
    match word {
        "module" => Some(Goal::Module),
        "script" => Some(Goal::Script),
        _ => None,
    }
}

fn task_named(word: &str) -> Option<Task> {
    match word {
        "read" => Some(Task::Read),
        "tree" => Some(Task::Tree),
        "keep" => Some(Task::Keep),
        "lines" => Some(Task::Print(Layout::Lines)),
        "compact" => Some(Task::Print(Layout::Compact)),
        _ => None,
    }
}

fn asked(goal: Option<String>, task: Option<String>) -> Option<(Goal, Task)> {
    let goal = goal_named(goal?.as_str())?;
    let task = task_named(task?.as_str())?;
    Some((goal, task))
}

fn main(rt: HostRuntime) -> Result<()> {
    let (goal, task) = (env::args(&rt)?.nth(1), env::args(&rt)?.nth(2));
    let Some((goal, task)) = asked(goal, task) else {
        bail!("usage: example_text module|script read|tree|keep|lines|compact");
    };
    let mut text = Vec::new(rt.alloc());
    rt.stdin().read_to_end(&mut text)?;
    match answer(rt.alloc(), goal, task, text.as_slice()) {
        Ok(out) => rt.stdout().write_all(out.as_slice())?,
        Err(Fault::Read(fault)) => bail!("{}", locate(text.as_slice(), fault)),
        Err(Fault::Edit(EditFault::NoMemory)) => bail!("out of memory"),
        Err(Fault::Edit(_)) => bail!("what was edited is not the text of its tree"),
        Err(Fault::Print(PrintFault::NoMemory)) => bail!("out of memory"),
        Err(Fault::Print(PrintFault::NotSpelled)) => bail!("its tree is not printed"),
    }
    Ok(())
}
