//! Rows of passes over `Module` and `Script`: the program before, and what is left after.
//!
//! The input is an envelope. `rename` and `remap` find the ids that are given anew under its key `names`, and
//! `unparen_comments` and `fix_comments` how many moves are granted under `room`; `letters`, `shortest`, `refusing`, `numbered` and `suffixed` are renamers, and `finish_with` and `chain_with` may stand before some of them. What is wanted is the envelope of what is left, behind the
//! moves that were asked for and the name of a refusal. Behind `twice` the same pass is run on the program two times, and
//! what is left the second time is wanted. Behind `deep` the statements of a script stand in 200 blocks, one in another, as the pass
//! is run, more than JSON may nest, and are taken out again. `fold` hands the program by value to the pass that does nothing, `items`
//! asks a check whether there are items, and `types` whether declarations of types stand in the program.
mod check;
mod finishing;
mod names;
mod passes;
mod renamers;
mod types;

use anyhow::{Result, bail};
use gate_rows::Given;
pub use passes::{Pass, class_of};
use std::alloc::Global;
use std::slice;
use swc_tree::{PassError, noop};
use swc_tree_node::Class;

// The program of a line, so many times.
fn read_times(alloc: Global, class: Class, input: &str, times: u32) -> Result<Vec<Given>> {
    let mut programs = Vec::new(alloc);
    for _ in 0..times {
        programs.push(Given::read(alloc, class, input)?)?;
    }
    Ok(programs)
}

// The pass of a row, by the first of its programs.
fn pass_of(alloc: Global, word: &str, input: &str, programs: &[Given]) -> Result<Pass> {
    match programs.first() {
        Some(first) => Pass::of_row(alloc, word, input, first),
        None => bail!("there is no program"),
    }
}

// What a pass leaves of the last program.
fn left_by(alloc: Global, pass: &mut Pass, programs: &mut Vec<Given>) -> Result<String> {
    let answer = pass.visit(alloc, programs.as_mut_slice());
    match programs.pop() {
        Some(last) => Ok(last.left(alloc, answer)?),
        None => bail!("there is no program"),
    }
}

// What is left of the last program, behind the moves of all.
fn run(alloc: Global, word: &str, input: &str, programs: &mut Vec<Given>) -> Result<String> {
    let mut pass = pass_of(alloc, word, input, programs.as_slice())?;
    let left = left_by(alloc, &mut pass, programs)?;
    Ok(pass.before(alloc, left)?)
}

// What is left of the last of the programs of a line, so many times.
fn run_times(alloc: Global, word: &str, class: Class, input: &str, times: u32) -> Result<String> {
    let mut programs = read_times(alloc, class, input, times)?;
    run(alloc, word, input, &mut programs)
}

// Runs a pass on a script whose statements stand in many blocks then.
fn visit_deep(alloc: Global, pass: &mut Pass, given: &mut Given) -> Result<Result<(), PassError>> {
    given.deepen(alloc)?;
    let answer = pass.visit(alloc, slice::from_mut(given));
    given.flatten(alloc)?;
    Ok(answer)
}

// What is left of such a script.
fn run_deep(alloc: Global, word: &str, class: Class, input: &str) -> Result<String> {
    let mut given = Given::read(alloc, class, input)?;
    let mut pass = Pass::of_row(alloc, word, input, &given)?;
    let answer = visit_deep(alloc, &mut pass, &mut given)?;
    Ok(given.left(alloc, answer)?)
}

// What is answered to the words of a pass before the goal.
fn run_pass(alloc: Global, command: &str, class: Class, input: &str) -> Result<String> {
    if let Some(word) = command.strip_prefix("deep ") {
        return run_deep(alloc, word, class, input);
    }
    match command.strip_prefix("twice ") {
        Some(word) => run_times(alloc, word, class, input, 2),
        None => run_times(alloc, command, class, input, 1),
    }
}

/// What is answered to a row.
pub fn answer(alloc: Global, words: &str, input: &str) -> Result<String> {
    let Some((command, class)) = words.rsplit_once(' ') else {
        bail!("a goal is needed");
    };
    let class = class_of(class)?;
    match command {
        "items" => check::answer(alloc, &Given::read(alloc, class, input)?),
        "types" => types::answer(alloc, &Given::read(alloc, class, input)?),
        "fold" => Given::read(alloc, class, input)?.folded(alloc, &mut noop()),
        _ => run_pass(alloc, command, class, input),
    }
}
