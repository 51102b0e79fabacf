//! Works that may be refused memory: a run of `jsbase`, of a pass over a program, or of a call.
//!
//! The arguments are `refuse`, then `jsbase` or `pass` and the words of a command or a pass and a goal, each by itself; or a work of
//! `library`, and the words of its row in one.
use crate::engine::run_words;
use crate::library;
use crate::programs::{Pass, class_of};
use anyhow::{Result, bail};
use gate_rows::{Asked, Given, Said, Work};
use jsbase_engine::{Fault, ServeFault, report};
use std::alloc::{AllocError, Global};
use swc_tree_marks::PassError;
use swc_tree_node::Class;

// A run of `jsbase`, with room for what it writes.
#[derive(Drop)]
struct Written {
    arguments: Vec<String>,
    input: String,
    output: Vec<u8>,
}

// A run of a pass over one program.
#[derive(Drop)]
struct Passed {
    pass: Pass,
    programs: Vec<Given>,
}

impl Written {
    fn of_asked(alloc: Global, arguments: &[String], asked: &Asked) -> Option<Written> {
        let mut copies = Vec::new(alloc);
        for argument in arguments {
            copies.push(argument.clone().ok()?).ok()?;
        }
        Some(Written {
            arguments: copies,
            input: asked.input.clone().ok()?,
            output: Vec::with_capacity(alloc, asked.wanted.len().saturating_add(1)).ok()?,
        })
    }
}

impl Work for Written {
    // A fault but want of memory is told as the program tells it.
    fn run(&mut self, alloc: Global) -> Option<Result<(), PassError>> {
        let input = self.input.as_bytes();
        match run_words(alloc, self.arguments.as_slice(), input, &mut self.output) {
            Err(ServeFault::NoMemory | ServeFault::Run(Fault::Refused(PassError::NoMemory))) => {
                return Some(Err(PassError::NoMemory));
            }
            Err(fault) => {
                let _status = report(&fault, &mut self.output);
            }
            Ok(()) => {}
        }
        Some(Ok(()))
    }

    fn is_kept(&mut self, _alloc: Global) -> Option<bool> {
        Some(self.output.is_empty())
    }

    fn is_ample(
        self,
        _alloc: Global,
        _answer: Result<(), PassError>,
        wanted: &str,
    ) -> Option<bool> {
        Some(self.output.as_slice().strip_suffix(b"\n")? == wanted.as_bytes())
    }
}

// The pass that a word names, or that of a row.
fn pass_named(alloc: Global, word: &str, input: &str, given: &Given) -> Option<Pass> {
    match Pass::of_word(alloc, word, given) {
        Ok(pass) => Some(pass),
        Err(_) => Pass::of_row(alloc, word, input, given).ok(),
    }
}

impl Passed {
    fn of_asked(alloc: Global, word: &str, class: Class, asked: &Asked) -> Option<Passed> {
        let given = Given::read(alloc, class, asked.input.as_str()).ok()?;
        let pass = pass_named(alloc, word, asked.input.as_str(), &given)?;
        let mut programs = Vec::new(alloc);
        programs.push(given).ok()?;
        Some(Passed { pass, programs })
    }

    // What is left of the program, behind the moves that the pass asked for.
    fn left(&mut self, alloc: Global, answer: Result<(), PassError>) -> Option<String> {
        let left = self.programs.pop()?.left(alloc, answer).ok()?;
        self.pass.before(alloc, left).ok()
    }
}

impl Work for Passed {
    fn run(&mut self, alloc: Global) -> Option<Result<(), PassError>> {
        Some(self.pass.visit(alloc, self.programs.as_mut_slice()))
    }

    fn is_kept(&mut self, _alloc: Global) -> Option<bool> {
        Some(self.programs.first()?.is_emptied())
    }

    // A refusal is wanted as `jsbase` tells it.
    fn is_ample(
        mut self,
        alloc: Global,
        answer: Result<(), PassError>,
        wanted: &str,
    ) -> Option<bool> {
        match answer {
            Ok(()) => Some(self.left(alloc, answer)?.as_str() == wanted),
            Err(error) => Some(wanted.strip_prefix("refused: ")? == error.name()),
        }
    }
}

// Words in one line.
fn joined(alloc: Global, words: &[String]) -> Result<String, AllocError> {
    let mut line = String::new(alloc);
    for (index, word) in words.iter().enumerate() {
        if index > 0 {
            line.push_str(" ")?;
        }
        line.push_str(word.as_str())?;
    }
    Ok(line)
}

// Of a command of `jsbase`, or of a pass and a goal.
fn reply_of_words(alloc: Global, work: &str, words: &[String], asked: &Asked) -> Result<Said> {
    let [before @ .., class] = words else {
        bail!("usage: gate_replay refuse jsbase|pass WORD.. module|script");
    };
    if work == "jsbase" {
        return asked.of(alloc, Written::of_asked(alloc, words, asked));
    }
    let class = class_of(class.as_str())?;
    let word = joined(alloc, before)?;
    asked.of(alloc, Passed::of_asked(alloc, word.as_str(), class, asked))
}

fn reply(alloc: Global, arguments: &[String], asked: &Asked) -> Result<Said> {
    match arguments {
        [_, work, words @ ..] if matches!(work.as_str(), "jsbase" | "pass") => {
            reply_of_words(alloc, work.as_str(), words, asked)
        }
        [_, work, words] => library::reply(alloc, work.as_str(), words.as_str(), asked),
        _ => bail!("usage: gate_replay refuse jsbase|pass|WORK WORD.."),
    }
}

/// Says of the work of the arguments what the lines of standard input ask.
pub fn serve(rt: &HostRuntime, arguments: &[String]) -> Result<()> {
    let asked = Asked::read(rt)?;
    reply(rt.alloc(), arguments, &asked)?.tell(rt)
}
