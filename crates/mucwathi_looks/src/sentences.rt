//! What is said of faults, gaps and differences.
ghost use Rattle.std.specs.Prelude.{◌≡◌};
ghost use Rattle.mucwathi_looks.specs.Reports.{cause_text, refusal_text, why_text};
ghost use Rattle.mucwathi_looks.specs.Status.{judge_status, run_status, text_status};

use mucwathi_commands::{Cause, JudgeFault, RunFault, Why};
use swc_tree_marks::PassError;
use text_source::TextFault;

// The status for a text that is not read: 3, but for a fault of ours and for want of memory.
fn status_of_text(fault: &TextFault) -> u8
    ensures { result ≡ text_status fault.now }
{
    match fault {
        TextFault::NotTheText | TextFault::NoMemory => 5,
        _ => 3,
    }
}

/// The status to end with where nothing was made of a text: 3 for what is not read, 5 for a refusal.
pub fn status_of(fault: &RunFault) -> u8
    ensures { result ≡ run_status fault.now }
{
    match fault {
        RunFault::Text(fault) => status_of_text(fault),
        RunFault::Refused(_) | RunFault::NotWritten | RunFault::NotKept => 5,
    }
}

/// The same where nothing is said of two texts.
pub fn status_of_judging(fault: &JudgeFault) -> u8
    ensures { result ≡ judge_status fault.now }
{
    match fault {
        JudgeFault::Before(fault) | JudgeFault::After(fault) => status_of_text(fault),
        JudgeFault::Refused(_) => 5,
    }
}

// Why a command is refused a program.
pub(crate) fn refusal_sentence(error: PassError) -> &'static str
    ensures { result.now ≡ refusal_text error }
{
    match error {
        PassError::NoMemory => "no memory",
        PassError::MarksSpent => "no mark is left for a scope",
        PassError::CounterSpent => "no number is left to make a free name with",
        PassError::NotAssignable => "a target in parentheses takes no value",
        PassError::TypesLeft => "types stand in it",
    }
}

// What the word says of two programs.
pub(crate) fn why_sentence(why: Why) -> &'static str
    ensures { result.now ≡ why_text why }
{
    match why {
        Why::Shape => "shape: they differ by more than names",
        Why::Name => "name: a label, an imported or an exported name has another text",
        Why::Free => "free: a free name has another text, was bound, or was free",
        Why::Split => "split: two uses of one variable became two",
        Why::Joined => "joined: two variables became one",
        Why::Top => "top: a name of the program's own scope has another text",
        Why::Reads => "reads: eval or with may read names, and one has another text",
        Why::Caught => "caught: a catch parameter is met by its name, and a name has another text",
    }
}

// What keeps a program from what is promised.
pub(crate) fn cause_sentence(cause: Cause) -> &'static str
    ensures { result.now ≡ cause_text cause }
{
    match cause {
        Cause::Types => "types stand in it",
        Cause::Context => "a name has a mark",
        Cause::Written => "it can't be written down as JavaScript",
        Cause::Classes => "classes are to keep their names",
        Cause::Reads => "eval or with may read names as it runs",
        Cause::Function => "a plain function stands in a block of sloppy code",
        Cause::Label => "a label names a function",
        Cause::Global => "the program declares undefined, NaN or Infinity",
        Cause::Repeated => "two parameters of a function have one name",
        Cause::Export => "what is exported is not declared",
        Cause::Twice => "a name is declared twice",
        Cause::Variable => "a var passes a scope that declares its name",
        Cause::Parameter => "two parameters have one name",
        Cause::Eval => "eval or arguments is declared",
    }
}
