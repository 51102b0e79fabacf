//! A row.
use crate::rows::begins_row;
use std::alloc::{AllocError, Global};

/// Words, texts, and what is wanted.
#[derive(Drop)]
pub(crate) struct Row {
    pub words: Vec<String>,
    pub text: String,
    pub other: String,
    pub out: String,
    pub map: String,
    pub told: String,
    pub status: String,
}

fn words_of(alloc: Global, line: &str) -> Result<Vec<String>, AllocError> {
    let mut words = Vec::new(alloc);
    for word in line.split_whitespace() {
        words.push(String::from_str(alloc, word)?)?;
    }
    Ok(words)
}

fn add(line: &str, text: &mut String) -> Result<(), AllocError> {
    text.push_str(line)?;
    text.push_str("\n")
}

fn add_times(word: &str, count: u32, text: &mut String) -> Result<(), AllocError> {
    for _ in 0..count {
        text.push_str(word)?;
    }
    Ok(())
}

// Adds a line that says how often a word stands before the middle, and another behind it: `3 ( x ) ;` is `(((x)));`.
fn add_nested(line: &str, text: &mut String) -> Result<(), AllocError> {
    let mut words = line.split_whitespace();
    let count = words.next().unwrap_or("").parse::<u32>().unwrap_or(0);
    add_times(words.next().unwrap_or(""), count, text)?;
    text.push_str(words.next().unwrap_or(""))?;
    add_times(words.next().unwrap_or(""), count, text)?;
    add(words.next().unwrap_or(""), text)
}

impl Row {
    fn of_words(alloc: Global, line: &str) -> Result<Row, AllocError> {
        Ok(Row {
            words: words_of(alloc, line)?,
            text: String::new(alloc),
            other: String::new(alloc),
            out: String::new(alloc),
            map: String::new(alloc),
            told: String::new(alloc),
            status: String::new(alloc),
        })
    }

    fn add_line(&mut self, line: &str) -> Result<(), AllocError> {
        if let Some(text) = line.strip_prefix("> ") {
            return add(text, &mut self.text);
        }
        if let Some(text) = line.strip_prefix("< ") {
            return add(text, &mut self.other);
        }
        if let Some(text) = line.strip_prefix("= ") {
            return add(text, &mut self.out);
        }
        self.add_nested_line(line)
    }

    // The same of a line of many levels, of a source map, of what is told, or of a status.
    fn add_nested_line(&mut self, line: &str) -> Result<(), AllocError> {
        if let Some(text) = line.strip_prefix("^ ") {
            return add_nested(text, &mut self.text);
        }
        if let Some(text) = line.strip_prefix("v ") {
            return add_nested(text, &mut self.out);
        }
        if let Some(text) = line.strip_prefix("@ ") {
            return add(text, &mut self.map);
        }
        if let Some(text) = line.strip_prefix("! ") {
            return add(text, &mut self.told);
        }
        if let Some(text) = line.strip_prefix("? ") {
            return self.status.push_str(text);
        }
        Ok(())
    }

    /// The row of its words and the lines behind them.
    pub(crate) fn of_lines(
        alloc: Global,
        words: &str,
        lines: &[String],
    ) -> Result<Row, AllocError> {
        let mut row = Row::of_words(alloc, words)?;
        for line in lines {
            if begins_row(line.as_str()) {
                break;
            }
            row.add_line(line.as_str())?;
        }
        Ok(row)
    }
}
