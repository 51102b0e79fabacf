//! `jsbase COMMAND KIND`: reads an envelope with a syntax tree from standard input, and writes the answer to
//! standard output or one line on standard error.
#![tactic(auto)]

ghost use Rattle.std.specs.Prelude.{◌≡◌, ◌≢◌, ◌⊎◌, IfErr};
ghost use Rattle.std.specs.IoError.{error_kind};
ghost use Rattle.std.specs.declared.io.ErrorKind.TheVariants as kind;
ghost use Rattle.swc_tree_marks.specs.declared.error.PassError.TheVariants as refusal;
ghost use Rattle.jsbase_commands.specs.declared.fault.Fault.TheVariants as fault;

use jsbase_commands::{Fault, ServeFault, report, serve, words};
use std::process::ExitCode;
use std::{env, io};
use swc_tree_marks::PassError;

// A want of memory is a refusal; else what the arguments are is not known, and they count as wrong.
fn unknown(error: &io::Error) -> Fault
    ensures memory { error_kind error.now ≡ kind.OutOfMemory → result ≡ fault.Refused refusal.NoMemory }
    ensures other { error_kind error.now ≢ kind.OutOfMemory → result ≡ fault.Usage }
{
    if error.kind() == io::ErrorKind::OutOfMemory {
        return Fault::Refused(PassError::NoMemory);
    }
    Fault::Usage
}

// What comes after the program's name.
fn arguments(rt: &HostRuntime) -> Result<Vec<String>, Fault>
    ensures { IfErr result (λ why. (why ≡ fault.Usage) ⊎ (why ≡ fault.Refused refusal.NoMemory)) }
{
    let all = match env::args(rt) {
        Ok(all) => all,
        Err(error) => return Err(unknown(&error)),
    };
    let mut given = Vec::new(rt.alloc());
    for argument in all.skip(1) {
        if given.push(argument).is_err() {
            return Err(Fault::Refused(PassError::NoMemory));
        }
    }
    Ok(given)
}

// Answers standard input to standard output, as the arguments say.
fn answer(rt: &HostRuntime) -> Result<(), ServeFault> {
    let given = arguments(rt)?;
    let (command, kind) = words(given.as_slice())?;
    serve(rt.alloc(), command, kind, &mut rt.stdin(), &mut rt.stdout())
}

fn main(rt: HostRuntime) -> ExitCode {
    match answer(&rt) {
        Ok(()) => ExitCode::SUCCESS,
        Err(fault) => ExitCode::from(report(&fault, &mut rt.stderr())),
    }
}
