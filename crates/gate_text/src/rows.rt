//! The rows of standard input.
use crate::commented::{commented, set};
use crate::edit::edit;
use crate::levels::levels;
use crate::mutants::mutants;
use crate::print::print;
use crate::read::{cuts, read};
use crate::shifts::shifts;
use crate::words::{Asked, Task, parse_words};
use crate::{commands, trees};
use anyhow::{Result, bail};
use std::alloc::Global;
use text_printer::Bytes;

/// A row.
#[derive(Drop)]
struct Row {
    text: Bytes,
    wanted: Bytes,
    has_text: bool,
    has_wanted: bool,
    /// Each byte of the text is written as it should be.
    is_sound: bool,
}

/// Puts the bytes of a text behind others, in which `⟨0D⟩` is the byte 13: whether each such is written as it should be.
pub(crate) fn add_bytes(line: &str, text: &mut Bytes) -> bool {
    let mut parts = line.split("⟨");
    if let Some(plain) = parts.next() {
        text.put(plain.as_bytes());
    }
    for part in parts {
        let Some((byte, plain)) = part.split_once("⟩") else {
            return false;
        };
        match u8::from_str_radix(byte, 16) {
            Ok(byte) => text.put_byte(byte),
            Err(_) => return false,
        }
        text.put(plain.as_bytes());
    }
    true
}

// The marks of lines behind a row's words.
const MARKS: [&str; 8] = ["> ", "= ", "< ", "@ ", "! ", "? ", "^ ", "v "];

/// Whether a row begins with the line.
pub(crate) fn begins_row(line: &str) -> bool {
    if line.is_empty() || line.starts_with("#") {
        return false;
    }
    for mark in MARKS {
        if line.starts_with(mark) {
            return false;
        }
    }
    true
}

impl Row {
    fn new(alloc: Global) -> Row {
        Row {
            text: Bytes::new(alloc),
            wanted: Bytes::new(alloc),
            has_text: false,
            has_wanted: false,
            is_sound: true,
        }
    }

    fn add_text(&mut self, line: &str) {
        if self.has_text {
            self.text.put_byte(b'\n');
        }
        self.has_text = true;
        if !add_bytes(line, &mut self.text) {
            self.is_sound = false;
        }
    }

    fn add_wanted(&mut self, line: &str) {
        if self.has_wanted {
            self.wanted.put_byte(b'\n');
        }
        self.has_wanted = true;
        self.wanted.put(line.as_bytes());
    }

    // The text and what is wanted.
    fn finish(self) -> Option<(Vec<u8>, Vec<u8>)> {
        let Row {
            text,
            wanted,
            is_sound,
            ..
        } = self;
        if !is_sound {
            return None;
        }
        match (text.finish(), wanted.finish()) {
            (Ok(text), Ok(wanted)) => Some((text, wanted)),
            _ => None,
        }
    }
}

// The text of a row and what it wants, by the lines behind its words.
fn row_of(alloc: Global, lines: &[String]) -> Option<(Vec<u8>, Vec<u8>)> {
    let mut row = Row::new(alloc);
    for line in lines {
        let line = line.as_str();
        if begins_row(line) {
            break;
        }
        if let Some(text) = line.strip_prefix("> ") {
            row.add_text(text);
        } else if let Some(wanted) = line.strip_prefix("= ") {
            row.add_wanted(wanted);
        }
    }
    row.finish()
}

/// What is answered to what a row asks of a text; nothing where the row is not written as it should be, or memory is refused.
pub(crate) fn answer(alloc: Global, asked: Asked, text: &[u8]) -> Option<String> {
    match asked.task {
        Task::Read => read(alloc, asked, text),
        Task::Print(layout) => print(alloc, asked, layout, text),
        Task::Commented(layout) => commented(alloc, asked, layout, text),
        Task::Set => set(alloc, asked, text),
        Task::Edit => edit(alloc, asked, text),
        Task::Cuts => cuts(alloc, asked, text),
        Task::Shifts => shifts(alloc, asked, text),
        Task::Mutants(count) => mutants(alloc, asked, count, text),
        Task::Levels(count) => levels(alloc, asked, count, text),
    }
}

// What comes of a row.
#[derive(Drop)]
enum Outcome {
    Wanted,
    Other(String),
    Unanswered(&'static str),
}

fn try_task(alloc: Global, words: &str, lines: &[String]) -> Outcome {
    let Some((text, wanted)) = row_of(alloc, lines) else {
        return Outcome::Unanswered("a byte is not written as it should be");
    };
    let answered = match parse_words(words) {
        Some(asked) => answer(alloc, asked, text.as_slice()),
        None => trees::answer(alloc, words, text.as_slice()),
    };
    match answered {
        Some(answer) => {
            if answer.as_str().as_bytes() == wanted.as_slice() {
                Outcome::Wanted
            } else {
                Outcome::Other(answer)
            }
        }
        None => Outcome::Unanswered("there is no answer"),
    }
}

// Whether a row, by the number of its first line and the lines behind its words, is answered as it wants. Says what is
// answered else.
fn is_answered(rt: &HostRuntime, number: u32, words: &str, lines: &[String]) -> Result<bool> {
    if words.starts_with("mucwathi") {
        return commands::is_answered(rt, words, lines);
    }
    match try_task(rt.alloc(), words, lines) {
        Outcome::Wanted => return Ok(true),
        Outcome::Other(answer) => println!(rt; "line {number}: {words}\n= {answer}")?,
        Outcome::Unanswered(why) => println!(rt; "line {number}: {words}: {why}")?,
    }
    Ok(false)
}

fn lines(rt: &HostRuntime) -> Result<Vec<String>> {
    let mut lines = Vec::new(rt.alloc());
    for line in rt.lines(rt.alloc()) {
        lines.push(line?)?;
    }
    Ok(lines)
}

/// Goes over the rows of standard input. Says which differ, and how many passed.
///
/// # Errors
///
/// Where a row differs, and what the answers are refused for.
pub(crate) fn replay(rt: &HostRuntime) -> Result<()> {
    let lines = lines(rt)?;
    let (mut passed, mut failed, mut number) = (0u32, 0u32, 0u32);
    let mut rest = lines.as_slice();
    for _ in 0..lines.len() {
        let [words, behind @ ..] = rest else {
            break;
        };
        number = number.saturating_add(1);
        if begins_row(words.as_str()) {
            if is_answered(rt, number, words.as_str(), behind)? {
                passed = passed.saturating_add(1);
            } else {
                failed = failed.saturating_add(1);
            }
        }
        rest = behind;
    }
    println!(rt; "{passed} passed, {failed} failed")?;
    if failed > 0 {
        bail!("{failed} rows differ");
    }
    Ok(())
}
