//! Rows of three lines, and what is said of them: words that say what is asked, an input, and what is wanted.
use anyhow::{Result, bail};
use std::alloc::Global;
use std::env;

/// What answers rows.
pub trait Answers {
    /// The answer to a row by its words and its input, if it has one.
    fn answer(alloc: Global, words: &str, input: &str) -> Result<Option<String>>;
}

// The lines of standard input.
fn lines(rt: &HostRuntime) -> Result<Vec<String>> {
    let mut lines = Vec::new(rt.alloc());
    for line in rt.lines(rt.alloc()) {
        lines.push(line?)?;
    }
    Ok(lines)
}

// Whether a row is answered as it wants. Says what is answered else.
fn is_answered<A: Answers>(
    rt: &HostRuntime,
    words: &str,
    input: &str,
    wanted: &str,
) -> Result<bool> {
    let Some(answer) = A::answer(rt.alloc(), words, input)? else {
        println!(rt; "{words} of {input} has no answer")?;
        return Ok(false);
    };
    let is_wanted = answer.as_str() == wanted;
    if !is_wanted {
        println!(rt; "{words} of {input} differs: {answer}")?;
    }
    Ok(is_wanted)
}

// How many rows there are, and how many of them differ.
fn count<A: Answers>(rt: &HostRuntime, mut lines: &[String]) -> Result<(u32, u32)> {
    let (mut rows, mut failed) = (0u32, 0u32);
    for _ in 0..lines.len() {
        let [words, input, wanted, rest @ ..] = lines else {
            break;
        };
        rows = rows.saturating_add(1);
        if !is_answered::<A>(rt, words.as_str(), input.as_str(), wanted.as_str())? {
            failed = failed.saturating_add(1);
        }
        lines = rest;
    }
    Ok((rows, failed))
}

/// Goes over the rows of standard input. Says which differ, and how many passed.
///
/// # Errors
///
/// Where a row differs, and what the answers are refused for.
pub fn replay<A: Answers>(rt: &HostRuntime) -> Result<()> {
    let lines = lines(rt)?;
    let (rows, failed) = count::<A>(rt, lines.as_slice())?;
    let passed = rows.saturating_sub(failed);
    println!(rt; "{passed} passed, {failed} failed")?;
    if failed > 0 {
        bail!("{failed} rows differ");
    }
    Ok(())
}

/// What comes after the program's name.
///
/// # Errors
///
/// Where an argument can't be read.
pub fn arguments(rt: &HostRuntime) -> Result<Vec<String>> {
    let mut given = Vec::new(rt.alloc());
    for argument in env::args(rt)?.skip(1) {
        given.push(argument)?;
    }
    Ok(given)
}
