//! `mucwathi`: JavaScript in, JavaScript out.
#![tactic(auto)]

mod files;
mod run;

use anyhow::Result;
use clap::error::ErrorKind;
use mucwathi_arguments::{Error, read_words};
use run::{NOT_READ, REFUSED, USAGE, run};
use std::env;
use std::process::ExitCode;

// The words of the command line, this program's name first.
fn words(rt: &HostRuntime) -> Result<Vec<String>> {
    let mut words = Vec::new(rt.alloc());
    for word in env::args(rt)? {
        words.push(word)?;
    }
    Ok(words)
}

// Tells what is wrong with the words, or what `--help` and `--version` ask for.
fn tell(rt: &HostRuntime, error: &Error) -> u8 {
    if error.print(rt).is_err() {
        return NOT_READ;
    }
    match error.kind() {
        ErrorKind::OutOfMemory => REFUSED,
        ErrorKind::DisplayHelp | ErrorKind::DisplayVersion => 0,
        _ => USAGE,
    }
}

// Does what the words ask, and tells the status to end with.
fn serve(rt: &HostRuntime, words: &[String]) -> u8 {
    match read_words(rt.alloc(), words) {
        Ok(task) => run(rt, &task),
        Err(error) => tell(rt, &error),
    }
}

fn main(rt: HostRuntime) -> ExitCode {
    match words(&rt) {
        Ok(words) => ExitCode::from(serve(&rt, words.as_slice())),
        Err(_) => ExitCode::from(REFUSED),
    }
}
