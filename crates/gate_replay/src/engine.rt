//! Rows of `jsbase`: what the program writes on an input.
use anyhow::Result;
use jsbase_engine::{Command, Fault, Kind, ServeFault, report, run, serve, words};
use std::alloc::{AllocError, Global};
use std::fmt::Write;

/// The words of a line.
pub fn split(alloc: Global, line: &str) -> Result<Vec<String>, AllocError> {
    let mut words = Vec::new(alloc);
    for word in line.split_whitespace() {
        words.push(String::from_str(alloc, word)?)?;
    }
    Ok(words)
}

/// Adds what the program writes on arguments and an input.
pub fn run_words(
    alloc: Global,
    arguments: &[String],
    mut input: &[u8],
    output: &mut Vec<u8>,
) -> Result<(), ServeFault> {
    let (command, kind) = words(arguments)?;
    serve(alloc, command, kind, &mut input, output)
}

/// The one line that the program writes on arguments in one line, to standard output or as a fault. There is none where no line
/// feed ends it.
pub fn written(alloc: Global, arguments: &str, input: &str) -> Result<Option<String>> {
    let words = split(alloc, arguments)?;
    let mut output = Vec::new(alloc);
    if let Err(fault) = run_words(alloc, words.as_slice(), input.as_bytes(), &mut output) {
        let _status = report(&fault, &mut output);
    }
    let mut line = String::from_utf8(output)?;
    if line.pop() != Some('\n') {
        return Ok(None);
    }
    Ok(Some(line))
}

/// The status of the program on arguments in one line.
pub fn status(alloc: Global, arguments: &str, input: &str) -> Result<String> {
    let words = split(alloc, arguments)?;
    let mut output = Vec::new(alloc);
    let status = match run_words(alloc, words.as_slice(), input.as_bytes(), &mut output) {
        Ok(()) => 0,
        Err(fault) => report(&fault, &mut output),
    };
    Ok(format!(in alloc; "{status}")?)
}

// Whether bytes are refused as no tree at all.
fn is_no_tree(alloc: Global, input: &[u8]) -> bool {
    matches!(
        &run(alloc, Command::Resolve, Kind::Module, input),
        Err(Fault::NotATree(path)) if path.as_str() == "$"
    )
}

/// How many proper beginnings of a text are no tree, and whether bytes are none that are no UTF-8.
pub fn beginnings(alloc: Global, input: &str) -> Result<String> {
    let text = input.as_bytes();
    let mut count = 0u32;
    for end in 0..text.len() {
        if is_no_tree(alloc, &text[..end]) {
            count = count.saturating_add(1);
        }
    }
    let bytes = is_no_tree(alloc, &[0xff]);
    Ok(format!(in alloc; "{count} {bytes}")?)
}
