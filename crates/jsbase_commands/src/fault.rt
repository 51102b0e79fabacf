//! Why there is no answer, and how that is told.
ghost use Rattle.std.specs.Prelude.{◌≡◌, [], ◌∷◌, ◌++◌};
ghost use Rattle.jsbase_commands.specs.Faults.{cause_of, status_of, text_of, line_of, of_input, IsBeginning};
ghost use Rattle.jsbase_commands.specs.declared.fault.ServeFault.TheVariants as serve;

use jsbase_stream::{InputFault, write_counted};
use std::error::Error;
use std::fmt;
use std::io::Write;
use swc_tree_marks::PassError;

/// Why there is no answer to an input.
#[derive(Debug, Drop)]
pub enum Fault {
    /// The arguments name no command and kind.
    Usage,
    /// A pass was refused.
    Refused(PassError),
    /// The input is no envelope with a tree of the kind asked; the path of the first fault in it.
    NotATree(String),
}

/// Why what a reader gives was not answered to a writer.
#[derive(Debug, Drop)]
pub enum ServeFault {
    /// There is no answer to what the reader gave.
    Run(Fault),
    /// A call of the reader failed.
    Read,
    /// A call of the writer failed, once it had taken so many bytes of the answer.
    Write(usize),
    /// Memory for what the reader gives was refused.
    NoMemory,
}

impl From<Fault> for ServeFault {
    ghost from_gives = { λ why fault. fault ≡ serve.Run why };

    fn from(fault: Fault) -> ServeFault {
        ServeFault::Run(fault)
    }
}

impl From<InputFault> for ServeFault {
    ghost from_gives = { λ why fault. fault ≡ of_input why };

    fn from(fault: InputFault) -> ServeFault {
        match fault {
            InputFault::Read => ServeFault::Read,
            InputFault::NoMemory => ServeFault::NoMemory,
        }
    }
}

// The two displays are written by hand, so that contracts see their texts: those of a derive are in none.
impl fmt::Display for Fault {
    ghost use Rattle.std.specs.Prelude.{Some};

    ghost output = { λ fault. Some (cause_of fault) };

    fn fmt<W: fmt::Write>(&self, f: &mut fmt::Formatter<W>) -> fmt::Result {
        let (cause, detail) = cause_of(self);
        f.write_str(cause)?;
        f.write_str(detail)
    }
}

impl Error for Fault {}

impl fmt::Display for ServeFault {
    ghost use Rattle.std.specs.Prelude.{Some};

    ghost output = { λ fault. Some (text_of fault) };

    fn fmt<W: fmt::Write>(&self, f: &mut fmt::Formatter<W>) -> fmt::Result {
        let (cause, detail) = parts_of(self);
        f.write_str(cause)?;
        f.write_str(detail)
    }
}

impl Error for ServeFault {}

// What the line of a fault begins with, and what follows, where an input has no answer.
fn cause_of(fault: &Fault) -> (&str, &str)
    ensures { result.0.now ++ result.1.now ≡ cause_of fault.now }
{
    match fault {
        Fault::Usage => (
            "usage: jsbase resolve|hygiene|fix|unparen|chain module|script",
            "",
        ),
        Fault::Refused(error) => ("refused: ", error.name()),
        Fault::NotATree(path) => ("not a tree: ", path.as_str()),
    }
}

// The same of each fault.
fn parts_of(fault: &ServeFault) -> (&str, &str)
    ensures text { result.0.now ++ result.1.now ≡ text_of fault.now }
    ensures line { result.0.now ++ result.1.now ++ 10 ∷ [] ≡ line_of fault.now }
{
    match fault {
        ServeFault::Run(fault) => cause_of(fault),
        ServeFault::Read => ("read failed", ""),
        ServeFault::Write(_) => ("write failed", ""),
        ServeFault::NoMemory => ("refused: ", PassError::NoMemory.name()),
    }
}

// Writes three texts, one behind the other, until the writer fails.
fn write_parts<W: Write>(out: &mut W, cause: &str, detail: &str, end: &str) -> Result<(), usize>
    ensures { IsBeginning (W.contents out.old) (W.contents out.new) (cause.now ++ detail.now ++ end.now) }
{
    write_counted(out, cause.as_bytes())?;
    write_counted(out, detail.as_bytes())?;
    write_counted(out, end.as_bytes())?;
    Ok(())
}

/// Writes the fault's line and answers the status with which the program ends: 1 for a refusal, 2 for
/// arguments that name nothing, 3 for what is no tree, 4 where a reader or a writer failed. An error of this writer is
/// passed over, and a beginning of the line then written.
pub fn report<W: Write>(fault: &ServeFault, out: &mut W) -> u8
    ensures status { result ≡ status_of fault.now }
    ensures line { IsBeginning (W.contents out.old) (W.contents out.new) (line_of fault.now) }
{
    let (cause, detail) = parts_of(fault);
    let _ = write_parts(out, cause, detail, "\n");
    match fault {
        ServeFault::Run(Fault::Refused(_)) | ServeFault::NoMemory => 1,
        ServeFault::Run(Fault::Usage) => 2,
        ServeFault::Run(Fault::NotATree(_)) => 3,
        ServeFault::Read | ServeFault::Write(_) => 4,
    }
}
