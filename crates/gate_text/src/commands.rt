//! Rows of `mucwathi`: what is written, what is told, and the status.
mod answered;
mod row;

use answered::answer;
use anyhow::Result;
use mucwathi_answers::Answer;
use row::Row;

// Whether bytes are the lines, the last of which may have no end.
fn are_lines(bytes: &[u8], lines: &str) -> bool {
    let lines = lines.as_bytes();
    match lines.split_last() {
        Some((_, front)) => bytes == front || bytes == lines,
        None => bytes.is_empty(),
    }
}

fn is_wanted(row: &Row, answer: &Answer) -> bool {
    let status = row.status.as_str().parse::<u8>().unwrap_or(0);
    are_lines(answer.out.as_slice(), row.out.as_str())
        && are_lines(answer.map.as_slice(), row.map.as_str())
        && are_lines(answer.told.as_slice(), row.told.as_str())
        && answer.status == status
}

// Writes lines, each behind a mark.
fn show_lines(rt: &HostRuntime, mark: &str, lines: &[u8]) -> Result<()> {
    let lines = String::from_utf8_lossy(rt.alloc(), lines)?;
    for line in lines.as_str().lines() {
        println!(rt; "{mark} {line}")?;
    }
    Ok(())
}

fn show(rt: &HostRuntime, words: &str, answer: &Answer) -> Result<()> {
    println!(rt; "{words}")?;
    show_lines(rt, "=", answer.out.as_slice())?;
    show_lines(rt, "@", answer.map.as_slice())?;
    show_lines(rt, "!", answer.told.as_slice())?;
    let status = answer.status;
    println!(rt; "? {status}")?;
    Ok(())
}

// Whether a row is answered as it wants. Says what is answered else.
fn is_row_answered(rt: &HostRuntime, words: &str, row: &Row) -> Result<bool> {
    let answer = answer(rt.alloc(), row)?;
    if is_wanted(row, &answer) {
        return Ok(true);
    }
    show(rt, words, &answer)?;
    Ok(false)
}

/// The same of the row that words and the lines behind them are.
pub(crate) fn is_answered(rt: &HostRuntime, words: &str, lines: &[String]) -> Result<bool> {
    let row = Row::of_lines(rt.alloc(), words, lines)?;
    is_row_answered(rt, words, &row)
}
