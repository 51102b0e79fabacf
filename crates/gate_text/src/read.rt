//! Rows of `read_text`.
use crate::show::{Spans, shown};
use crate::words::Asked;
use std::alloc::Global;
use std::fmt::Write;
use text_source::{TextFault, locate, read_text};

/// A text that is answered.
pub(crate) fn said(alloc: Global, text: &str) -> Option<String> {
    String::from_str(alloc, text).ok()
}

/// A fault with its place.
pub(crate) fn told(alloc: Global, text: &[u8], fault: TextFault) -> Option<String> {
    let located = locate(text, fault);
    format!(in alloc; "{located}").ok()
}

/// The tree of a text, or its fault.
pub(crate) fn read(alloc: Global, asked: Asked, text: &[u8]) -> Option<String> {
    match read_text(alloc, asked.goal, asked.depth, text) {
        Ok(tree) => shown(alloc, Spans::Shown, &tree),
        Err(fault) => told(alloc, text, fault),
    }
}

/// How many beginnings of a text are read, and how many refused.
pub(crate) fn cuts(alloc: Global, asked: Asked, text: &[u8]) -> Option<String> {
    let mut read = 0usize;
    for end in 0..text.len() {
        if read_text(alloc, asked.goal, asked.depth, &text[..end]).is_ok() {
            read = read.saturating_add(1);
        }
    }
    let refused = text.len().saturating_sub(read);
    format!(in alloc; "{read} read, {refused} refused").ok()
}
