//! `example_free_names module|script`: reads an envelope with a program from standard input, and writes the free names of the
//! program, each once, in the order of the source.
#![tactic(auto)]

mod answer;
mod free;

use answer::{Fault, answer};
use anyhow::{Result, bail};
use jsbase_programs::Goal;
use std::env;
use std::io::Read;

fn goal_named(word: &str) -> Option<Goal> {
    match word {
        "module" => Some(Goal::Module),
        "script" => Some(Goal::Script),
        _ => None,
    }
}

fn main(rt: HostRuntime) -> Result<()> {
    let word = env::args(&rt)?.nth(1);
    let Some(goal) = word.and_then(|word| goal_named(word.as_str())) else {
        bail!("usage: example_free_names module|script");
    };
    let mut input = Vec::new(rt.alloc());
    rt.stdin().read_to_end(&mut input)?;
    match answer(rt.alloc(), goal, input.as_slice()) {
        Ok(text) => print!(rt; "{text}")?,
        Err(Fault::NotATree(path)) => bail!("not a tree: {}", path.to_text(rt.alloc())?),
        Err(Fault::Refused(error)) => bail!("refused: {}", error.name()),
    }
    Ok(())
}
