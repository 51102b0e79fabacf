//! Rows of calls that no command of `jsbase` reaches, behind the word `library`: helpers, also in programs, features of versions,
//! assumptions, native names, passes run one after another, and programs deeper than JSON may nest.
use std::alloc::Global;

mod deep;
mod finished;
mod helpers;
mod injection;
mod refuse;
mod settings;
mod works;

pub use refuse::reply;

/// The answer to a row by its words and its input, if it has one.
pub fn answer(alloc: Global, words: &str, input: &str) -> Option<String> {
    if let Some(answer) = finished::answer(alloc, words, input) {
        return Some(answer);
    }
    if let Some(answer) = deep::answer(alloc, words) {
        return Some(answer);
    }
    if let Some(answer) = helpers::answer(alloc, words, input) {
        return Some(answer);
    }
    match injection::answer(alloc, words, input) {
        Some(answer) => Some(answer),
        None => settings::answer(alloc, words, input),
    }
}
