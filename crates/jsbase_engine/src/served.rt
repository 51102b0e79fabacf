//! From a reader to a writer.
ghost use Rattle.std.specs.Prelude.{MatchResult};
ghost use Rattle.jsbase_engine.specs.Served.{IsServed, IsServeFault};

use crate::laws::{promises_are_kept, targets_are_spared};
use jsbase_commands::{Command, Kind, ServeFault};
use std::alloc::Global;
use std::io::{Read, Write};

/// Answers to a writer what the program writes on all that a reader gives.
///
/// The reader is read to its end before anything is written, by at most 2^64 - 1 calls. A call of the reader or of the
/// writer that fails is not made again, whatever its error, and neither is a write that takes nothing.
///
/// # Errors
///
/// `Run` where there is no answer to what the reader gave, `Read` where a call of the reader failed or none of them gave the
/// end, and `NoMemory` where memory for the input was refused: nothing was written then. `Write` where a call of the writer
/// failed, with the number of bytes that it had taken: the first so many of the answer.
pub fn serve<R: Read, W: Write>(
    alloc: Global,
    command: Command,
    kind: Kind,
    input: &mut R,
    output: &mut W,
) -> Result<(), ServeFault>
    ensures { MatchResult result (λ _. IsServed command kind (R.remaining input.old) (R.remaining input.new) (W.contents output.old) (W.contents output.new)) (IsServeFault command kind (R.remaining input.old) (R.remaining input.new) W.contents output.old output.new) }
{
    promises_are_kept();
    targets_are_spared();
    jsbase_commands::serve(alloc, command, kind, input, output)
}
