//! Answers.
ghost use Rattle.std.specs.Prelude.{◌≡◌, [], IfOk};
ghost use Rattle.mucwathi_answers.specs.Answers.{IsFaultTold};

use mucwathi_commands::RunFault;
use mucwathi_looks::{Named, status_of, tell_fault};
use std::alloc::{AllocError, Global};

/// How many productions may be open at once.
pub(crate) const DEPTH: u32 = 4_000;

/// What is written to standard output or to a file, what is told on standard error, and the status: 0 where all went well.
#[derive(Debug, Drop)]
pub struct Answer {
    pub out: Vec<u8>,
    /// A source map, where one is asked for.
    pub map: Vec<u8>,
    pub told: Vec<u8>,
    pub status: u8,
}

impl Answer {
    // What is written, where all went well.
    pub(crate) fn of(alloc: Global, out: Vec<u8>) -> Answer
        ensures out { result.out ≡ out }
        ensures status { result.status ≡ 0 }
    {
        Answer {
            out,
            map: Vec::new(alloc),
            told: Vec::new(alloc),
            status: 0,
        }
    }

    // Nothing is written.
    pub(crate) fn told(alloc: Global, told: Vec<u8>, status: u8) -> Answer
        ensures out { result.out.items ≡ [] }
        ensures told { result.told ≡ told }
        ensures status { result.status ≡ status }
    {
        Answer {
            out: Vec::new(alloc),
            map: Vec::new(alloc),
            told,
            status,
        }
    }

    pub(crate) fn fault(
        alloc: Global,
        of: Named<'_>,
        fault: &RunFault,
    ) -> Result<Answer, AllocError>
        ensures { IfOk result (IsFaultTold of.entry fault.now) }
    {
        let told = tell_fault(alloc, of, fault)?;
        Ok(Answer::told(alloc, told, status_of(fault)))
    }
}
