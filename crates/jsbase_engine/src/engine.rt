//! From the bytes of an envelope to the bytes of an envelope.
ghost use Rattle.std.specs.Prelude.{MatchResult};
ghost use Rattle.jsbase_engine.specs.Run.{Answers, IsFaultOf};

use crate::laws::{promises_are_kept, targets_are_spared};
use jsbase_commands::{Command, Fault, Kind};
use std::alloc::Global;

/// What the program writes on an input.
///
/// Of a program that is chained it promises what `chain_module` or `chain_script` does, and of one whose parentheses are set anew what
/// the fixer does. Time and memory grow in step with the input.
///
/// # Errors
///
/// `NotATree` with the path of the first fault where the input is no envelope with a tree of the kind;
/// `Refused` where the command's pass is refused, or memory is. Never `Usage`.
pub fn run(alloc: Global, command: Command, kind: Kind, input: &[u8]) -> Result<Vec<u8>, Fault>
    ensures { MatchResult result (λ output. Answers command kind input.now output.items) (IsFaultOf command kind input.now) }
{
    promises_are_kept();
    targets_are_spared();
    jsbase_commands::run(alloc, command, kind, input)
}
