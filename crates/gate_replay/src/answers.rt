//! What is answered to a row.
use crate::{analysed, engine, judged, kinds, library, plain, programs, serving, units};
use anyhow::Result;
use gate_rows::Answers;
use std::alloc::Global;

/// The answers to the rows of this program: by the first of their words, else what `jsbase` writes.
pub struct OfRows;

// Whether a row with this word is one of passes.
fn is_of_passes(first: &str) -> bool {
    matches!(
        first,
        "pass"
            | "twice"
            | "deep"
            | "fold"
            | "items"
            | "types"
            | "rename"
            | "remap"
            | "letters"
            | "shortest"
            | "refusing"
            | "numbered"
            | "suffixed"
            | "finish_with"
            | "chain_with"
            | "unparen_comments"
            | "fix_comments"
    )
}

// The answer to a row of one envelope or of what is served, if its word names one.
fn of_input(alloc: Global, first: &str, rest: &str, input: &str) -> Option<Result<String>> {
    match first {
        "analysed" => Some(analysed::answer(alloc, rest, input)),
        "judged" => Some(judged::answer(alloc, rest, input)),
        "plain" => Some(plain::answer(alloc, rest, input)),
        "status" => Some(engine::status(alloc, rest, input)),
        "served" => Some(serving::answer(alloc, rest, input)),
        "beginnings" => Some(engine::beginnings(alloc, input)),
        _ => None,
    }
}

impl Answers for OfRows {
    fn answer(alloc: Global, words: &str, input: &str) -> Result<Option<String>> {
        let (first, rest) = words.split_once(' ').unwrap_or((words, ""));
        if is_of_passes(first) {
            return Ok(Some(programs::answer(alloc, words, input)?));
        }
        if let Some(answer) = of_input(alloc, first, rest, input) {
            return Ok(Some(answer?));
        }
        match first {
            "kinds" => Ok(kinds::answer(alloc)),
            "library" => Ok(library::answer(alloc, rest, input)),
            "unit" => Ok(units::answer(alloc, rest)),
            _ => engine::written(alloc, words, input),
        }
    }
}
