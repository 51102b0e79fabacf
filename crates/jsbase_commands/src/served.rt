//! From a reader to a writer.
ghost use Rattle.std.specs.Prelude.{MatchResult};
ghost use Rattle.jsbase_commands.specs.Run.{Makes, IsRunFault};
ghost use Rattle.jsbase_commands.specs.Served.{IsServed, IsServeFault};

use crate::arguments::{Command, Kind};
use crate::commands::run;
use crate::fault::ServeFault;
use jsbase_stream::{read_all, write_counted};
use std::alloc::Global;
use std::io::{Read, Write};

/// Answers to a writer what the program writes on all that a reader gives.
///
/// The reader is read to its end before anything is written, by at most 2^64 - 1 calls. A call of the reader or of the
/// writer that fails is not made again, whatever its error, and neither is a write that takes nothing.
///
/// # Errors
///
/// `Run` where there is no answer to what the reader gave, `Read` where a call of the reader failed or none of them gave the
/// end, and `NoMemory` where memory for the input was refused: nothing was written then. `Write` where a call of the writer
/// failed, with the number of bytes that it had taken: the first so many of the answer.
pub fn serve<R: Read, W: Write>(
    alloc: Global,
    command: Command,
    kind: Kind,
    input: &mut R,
    output: &mut W,
) -> Result<(), ServeFault>
    ensures { MatchResult result (λ _. IsServed (Makes command kind) (R.remaining input.old) (R.remaining input.new) (W.contents output.old) (W.contents output.new)) (IsServeFault (Makes command kind) (IsRunFault command kind) (R.remaining input.old) (R.remaining input.new) W.contents output.old output.new) }
{
    let read = read_all(alloc, input)?;
    let answer = run(alloc, command, kind, read.as_slice())?;
    match write_counted(output, answer.as_slice()) {
        Ok(()) => Ok(()),
        Err(taken) => Err(ServeFault::Write(taken)),
    }
}
