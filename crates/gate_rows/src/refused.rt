//! A work that is refused memory.
//!
//! Standard input is three lines: how many requests for memory are made before the work, an input, and what comes of it with
//! ample memory. Whoever refuses the n-th request of the program, for one n and each number of requests before, so refuses each
//! request of the work in turn (`tools/refuse_memory.py` does). Where the first line is `before` or `after`, the answer is how
//! many requests are granted in place of the work or after it, before one is refused.
use anyhow::{Result, bail};
use std::alloc::Global;
use std::fmt;
use swc_tree::PassError;

// How many requests are made where all that are granted are counted: more than any number that is refused.
const MOST: usize = 100_000;

/// A work that may be refused memory, with all that it needs.
pub trait Work: Drop {
    /// Does it, if it can be done at all.
    fn run(&mut self, alloc: Global) -> Option<Result<(), PassError>>;

    /// Whether a refusal left what it has to leave.
    fn is_kept(&mut self, alloc: Global) -> Option<bool>;

    /// Whether what came of it is what is wanted.
    fn is_ample(self, alloc: Global, answer: Result<(), PassError>, wanted: &str) -> Option<bool>;
}

// When memory is refused.
#[derive(Clone, Copy)]
enum When {
    /// In place of the work.
    Before,
    /// After it.
    After,
    /// After so many requests.
    Request(usize),
}

/// What is asked of a work: the lines of standard input.
#[derive(Drop)]
pub struct Asked {
    when: When,
    pub input: String,
    pub wanted: String,
}

/// What is said of a work.
#[derive(Clone, Copy)]
pub enum Said {
    /// How many requests were granted.
    Granted(usize),
    /// It answered what it answers with ample memory.
    Ample,
    /// It answered that memory was refused, and left what it has to leave.
    Refused,
    /// Neither.
    Other,
}

impl fmt::Display for Said {
    fn fmt<W: fmt::Write>(&self, f: &mut fmt::Formatter<W>) -> fmt::Result {
        match self {
            Said::Granted(count) => write!(f, "{count}"),
            Said::Ample => f.write_str("ample"),
            Said::Refused => f.write_str("refused"),
            Said::Other => f.write_str("other"),
        }
    }
}

impl Said {
    /// Writes it to standard output.
    ///
    /// # Errors
    ///
    /// Where the work answered neither what it answers with ample memory nor that memory was refused.
    pub fn tell(self, rt: &HostRuntime) -> Result<()> {
        println!(rt; "{self}")?;
        match self {
            Said::Other => bail!("the answer is neither the ample one nor a refusal"),
            _ => Ok(()),
        }
    }
}

fn when_asked(word: &str) -> Result<When> {
    match word {
        "before" => Ok(When::Before),
        "after" => Ok(When::After),
        count => Ok(When::Request(count.parse()?)),
    }
}

// How many of so many requests are granted before one is refused. Nothing that was granted is kept.
fn granted(alloc: Global, most: usize) -> usize {
    for count in 0..most {
        if Box::new(alloc, 0u8).is_err() {
            return count;
        }
    }
    most
}

// What is said in place of the work, if anything is. The requests before it are made here.
fn before(alloc: Global, when: When) -> Option<Said> {
    match when {
        When::Before => Some(Said::Granted(granted(alloc, MOST))),
        When::Request(count) if granted(alloc, count) < count => Some(Said::Other),
        _ => None,
    }
}

// What is said of what a work answered.
fn of_answer<W: Work>(
    alloc: Global,
    answer: Result<(), PassError>,
    mut work: W,
    wanted: &str,
) -> Said {
    let is_kept = answer.is_ok() || work.is_kept(alloc) == Some(true);
    if !is_kept {
        return Said::Other;
    }
    if matches!(answer, Err(PassError::NoMemory)) {
        return Said::Refused;
    }
    match work.is_ample(alloc, answer, wanted) {
        Some(true) => Said::Ample,
        _ => Said::Other,
    }
}

impl Asked {
    /// What standard input asks.
    ///
    /// # Errors
    ///
    /// Where it is not three lines, or the first says neither a word nor a number.
    pub fn read(rt: &HostRuntime) -> Result<Asked> {
        let mut lines = rt.lines(rt.alloc());
        let (Some(first), Some(input), Some(wanted)) = (lines.next(), lines.next(), lines.next())
        else {
            bail!("three lines are needed");
        };
        Ok(Asked {
            when: when_asked(first?.as_str())?,
            input: input?,
            wanted: wanted?,
        })
    }

    /// What is said of a run of a work, if there is one.
    ///
    /// # Errors
    ///
    /// Where there is none, or it can't be done.
    pub fn of<W: Work>(&self, alloc: Global, work: Option<W>) -> Result<Said> {
        let Some(mut work) = work else {
            bail!("there is no such work, or its input is not as it should be");
        };
        if let Some(said) = before(alloc, self.when) {
            return Ok(said);
        }
        let answer = work.run(alloc);
        if matches!(self.when, When::After) {
            return Ok(Said::Granted(granted(alloc, MOST)));
        }
        match answer {
            Some(answer) => Ok(of_answer(alloc, answer, work, self.wanted.as_str())),
            None => bail!("the work can't be done on this input"),
        }
    }
}
