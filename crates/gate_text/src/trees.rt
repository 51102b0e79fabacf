//! Rows of trees that lack something, and of such that don't, of trees that are pinned or not, and of texts that are written of them.
mod lack;
mod pin;
mod written;

use std::alloc::Global;

/// The answer to what some words ask of the tree that a text of JSON is, if they ask of one.
pub(crate) fn answer(alloc: Global, words: &str, text: &[u8]) -> Option<String> {
    let input = str::from_utf8(text).ok()?;
    if let Some(answer) = lack::answer(alloc, words, input) {
        return Some(answer);
    }
    match pin::answer(alloc, words, input) {
        Some(answer) => Some(answer),
        None => written::answer(alloc, words, input),
    }
}
