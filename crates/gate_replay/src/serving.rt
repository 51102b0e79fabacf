//! Rows of what is read and written: each call of a reader and of a writer fails in turn.
//!
//! The words are a command and a goal. The answer is how many calls of the reader and how many of the writer were tried, if each
//! left what it has to leave: nothing was written where a read failed, and where a write did, what it says was written and no more.
use crate::engine::split;
use crate::streams::{Failure, Sink, Source};
use anyhow::{Result, bail};
use jsbase_engine::{Command, Kind, ServeFault, run, serve, words};
use std::alloc::Global;
use std::io::ErrorKind;

// How many bytes a call reads, and how many it writes.
const READ: usize = 100;

const WRITTEN: usize = 7;

// How many calls no row makes.
const MANY: usize = 100_000;

/// What is served, and the answer to it.
#[derive(Clone, Copy)]
struct Served<'a> {
    command: Command,
    kind: Kind,
    input: &'a [u8],
    answer: &'a [u8],
}

// How many calls it takes to hand on so many bytes.
fn calls(bytes: usize, most: usize) -> usize {
    bytes.div_ceil(most.max(1))
}

impl Served<'_> {
    // What a run leaves of the writer.
    fn run(
        &self,
        alloc: Global,
        source: &mut Source<'_>,
        sink: &mut Sink,
    ) -> Result<(), ServeFault> {
        serve(alloc, self.command, self.kind, source, sink)
    }

    // Whether all is served by many calls that hand on little.
    fn is_served(&self, alloc: Global) -> bool {
        let mut source = Source::new(self.input, READ, MANY, ErrorKind::Other);
        let mut sink = Sink::new(Vec::new(alloc), WRITTEN, MANY, Failure::Error);
        self.run(alloc, &mut source, &mut sink).is_ok() && sink.taken.as_slice() == self.answer
    }

    // Whether a read that fails after so many is told, and nothing written.
    fn is_unread(&self, alloc: Global, reads: usize, failure: ErrorKind) -> bool {
        let mut source = Source::new(self.input, READ, reads, failure);
        let mut sink = Sink::new(Vec::new(alloc), WRITTEN, MANY, Failure::Error);
        let answer = self.run(alloc, &mut source, &mut sink);
        matches!(answer, Err(ServeFault::Read)) && sink.taken.is_empty()
    }

    // Whether a write that fails after so many is told with what was written.
    fn is_unwritten(&self, alloc: Global, writes: usize, failure: Failure) -> bool {
        let mut source = Source::new(self.input, READ, MANY, ErrorKind::Other);
        let mut sink = Sink::new(Vec::new(alloc), WRITTEN, writes, failure);
        let answer = self.run(alloc, &mut source, &mut sink);
        let Err(ServeFault::Write(written)) = answer else {
            return false;
        };
        sink.taken.len() == written && self.answer.starts_with(sink.taken.as_slice())
    }

    // Whether each read that fails is told.
    fn reads_fail(&self, alloc: Global, reads: usize) -> bool {
        for count in 0..reads {
            if !self.is_unread(alloc, count, ErrorKind::Other)
                || !self.is_unread(alloc, count, ErrorKind::Interrupted)
            {
                return false;
            }
        }
        true
    }

    // Whether each write that fails, or takes nothing, is told.
    fn writes_fail(&self, alloc: Global, writes: usize) -> bool {
        for count in 0..writes {
            for failure in [Failure::Error, Failure::Interruption, Failure::Nothing] {
                if !self.is_unwritten(alloc, count, failure) {
                    return false;
                }
            }
        }
        true
    }
}

/// What is answered to a row: how many reads and writes were tried.
pub fn answer(alloc: Global, arguments: &str, input: &str) -> Result<String> {
    let arguments = split(alloc, arguments)?;
    let Ok((command, kind)) = words(arguments.as_slice()) else {
        bail!("a command and a goal are needed");
    };
    let input = input.as_bytes();
    let Ok(answer) = run(alloc, command, kind, input) else {
        bail!("the input has no answer");
    };
    let served = Served {
        command,
        kind,
        input,
        answer: answer.as_slice(),
    };
    // The last read finds the end.
    let reads = calls(input.len(), READ).saturating_add(1);
    let writes = calls(answer.len(), WRITTEN);
    if !served.is_served(alloc) {
        bail!("the answer is not served");
    }
    if !served.reads_fail(alloc, reads) || !served.writes_fail(alloc, writes) {
        bail!("a call that failed is not told as it should be");
    }
    Ok(format!(in alloc; "{reads} reads and {writes} writes fail")?)
}
