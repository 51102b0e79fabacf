//! Works that are refused memory. The arguments are `refuse`, then the work, `read` or `print`, then the words of a row.
//!
//! Standard input is three lines: how many requests for memory are made before the work, an input, and what comes of it with ample
//! memory. Whoever refuses the n-th request of the program, for one n and each number of requests before, so refuses each request
//! of the work in turn (`tools/refuse_memory.py` does). Where the first line is `before` or `after`, the answer is how many
//! requests are granted in place of the work or after it, before one is refused.
use crate::read::told;
use crate::rows::add_bytes;
use crate::show::{Spans, shown};
use crate::words::{Asked, Task, comments_of, parse_words};
use anyhow::{Result, bail};
use std::alloc::Global;
use std::fmt::Write;
use swc_tree_node::Node;
use text_printer::{Bytes, Layout, PrintFault, print_text};
use text_source::{TextFault, read_text};

// How many requests are made where all that are granted are counted: more than any number that is refused.
const MOST: usize = 100_000;

// When memory is refused.
#[derive(Clone, Copy, PartialEq, Eq)]
enum When {
    // In place of the work.
    Before,
    // After it.
    After,
    // After so many requests.
    Request(usize),
}

// A work with all that it needs.
#[derive(Drop)]
enum Work {
    Read(Asked, Vec<u8>),
    Print(Asked, Layout, Node),
}

// What came of a work.
#[derive(Drop)]
enum Done {
    Read(Result<Node, TextFault>),
    Printed(Result<Vec<u8>, PrintFault>),
}

fn when_asked(word: &str) -> Result<When> {
    match word {
        "before" => Ok(When::Before),
        "after" => Ok(When::After),
        count => Ok(When::Request(count.parse()?)),
    }
}

// How many of so many requests are granted before one is refused. Nothing that was granted is kept.
fn granted(alloc: Global, most: usize) -> usize {
    for count in 0..most {
        if Box::new(alloc, 0u8).is_err() {
            return count;
        }
    }
    most
}

fn bytes_of(alloc: Global, input: &str) -> Option<Vec<u8>> {
    let mut text = Bytes::new(alloc);
    if add_bytes(input, &mut text) {
        text.finish().ok()
    } else {
        None
    }
}

fn work_of(alloc: Global, work: &str, words: &str, input: &str) -> Option<Work> {
    let asked = parse_words(words)?;
    let text = bytes_of(alloc, input)?;
    match (work, asked.task) {
        ("read", Task::Read) => Some(Work::Read(asked, text)),
        ("print", Task::Print(layout)) => {
            let tree = read_text(alloc, asked.goal, asked.depth, text.as_slice()).ok()?;
            Some(Work::Print(asked, layout, tree))
        }
        _ => None,
    }
}

fn run(alloc: Global, work: &Work) -> Done {
    match work {
        Work::Read(asked, text) => Done::Read(read_text(
            alloc,
            asked.goal,
            asked.depth,
            text.as_slice(),
        )),
        Work::Print(asked, layout, tree) => Done::Printed(print_text(
            alloc,
            comments_of(asked.goal),
            *layout,
            tree,
        )),
    }
}

// Whether what was read is what is wanted: a tree, or a fault of the text.
fn is_read(alloc: Global, work: &Work, read: &Result<Node, TextFault>, wanted: &str) -> bool {
    let said = match (read, work) {
        (Ok(tree), _) => shown(alloc, Spans::Shown, tree),
        (Err(fault), Work::Read(_, text)) => told(alloc, text.as_slice(), *fault),
        _ => None,
    };
    match said {
        Some(said) => said.as_str() == wanted,
        None => false,
    }
}

fn is_wanted(alloc: Global, work: &Work, done: &Done, wanted: &str) -> bool {
    match done {
        Done::Read(read) => is_read(alloc, work, read, wanted),
        Done::Printed(Ok(text)) => match bytes_of(alloc, wanted) {
            Some(wanted) => text.as_slice() == wanted.as_slice(),
            None => false,
        },
        Done::Printed(Err(_)) => false,
    }
}

// What is said of what came of a work.
fn verdict(alloc: Global, work: &Work, done: &Done, wanted: &str) -> &'static str {
    match done {
        Done::Read(Err(TextFault::NoMemory)) | Done::Printed(Err(PrintFault::NoMemory)) => {
            "refused"
        }
        done => {
            if is_wanted(alloc, work, done, wanted) {
                "ample"
            } else {
                "other"
            }
        }
    }
}

// What is said of a work, of which so many requests come before it, or that is to be counted; nothing where one of these is refused.
fn said(alloc: Global, when: When, work: &Work, wanted: &str) -> Option<String> {
    let before = match when {
        When::Before => return counted(alloc),
        When::After => 0,
        When::Request(count) => count,
    };
    if granted(alloc, before) < before {
        return None;
    }
    let done = run(alloc, work);
    if when == When::After {
        return counted(alloc);
    }
    String::from_str(alloc, verdict(alloc, work, &done, wanted)).ok()
}

// How many requests are granted from here on.
fn counted(alloc: Global) -> Option<String> {
    let count = granted(alloc, MOST);
    format!(in alloc; "{count}").ok()
}

// Says what comes of a work.
fn tell(rt: &HostRuntime, when: When, work: &Work, wanted: &str) -> Result<()> {
    let Some(said) = said(rt.alloc(), when, work, wanted) else {
        bail!("a request before the work was refused");
    };
    println!(rt; "{said}")?;
    if said.as_str() == "other" {
        bail!("the answer is neither the ample one nor a refusal");
    }
    Ok(())
}

/// Says of the work of a row what the lines of standard input ask.
///
/// # Errors
///
/// Where there is no such work, or it answered neither what it answers with ample memory nor that memory was refused.
pub(crate) fn serve(rt: &HostRuntime, work: &str, words: &str) -> Result<()> {
    let alloc = rt.alloc();
    let mut lines = rt.lines(alloc);
    let (Some(first), Some(input), Some(wanted)) = (lines.next(), lines.next(), lines.next()) else {
        bail!("three lines are needed");
    };
    let (when, input, wanted) = (when_asked(first?.as_str())?, input?, wanted?);
    let Some(work) = work_of(alloc, work, words, input.as_str()) else {
        bail!("there is no such work, or its input is not as it should be");
    };
    tell(rt, when, &work, wanted.as_str())
}
