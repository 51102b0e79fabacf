//! Rows of texts that nest.
use crate::read::{said, told};
use crate::words::Asked;
use std::alloc::Global;
use text_printer::Bytes;
use text_source::read_text;

fn add_times(text: &mut Bytes, part: &[u8], times: u32) {
    for _ in 0..times {
        text.put(part);
    }
}

// Whether a text is read; else its fault.
fn read_or_told(alloc: Global, asked: Asked, text: &[u8]) -> Option<String> {
    match read_text(alloc, asked.goal, asked.depth, text) {
        Ok(_) => said(alloc, "read"),
        Err(fault) => told(alloc, text, fault),
    }
}

/// Whether so many first lines, the second, and so many third lines are read; else the fault.
pub(crate) fn levels(alloc: Global, asked: Asked, count: u32, lines: &[u8]) -> Option<String> {
    let mut parts = lines.split(|byte| *byte == b'\n');
    let (Some(opening), Some(inner), Some(closing)) = (parts.next(), parts.next(), parts.next())
    else {
        return None;
    };
    let mut text = Bytes::new(alloc);
    add_times(&mut text, opening, count);
    text.put(inner);
    add_times(&mut text, closing, count);
    let text = text.finish().ok()?;
    read_or_told(alloc, asked, text.as_slice())
}
