//! What the gate asks of trees that no program leads to: copied, opened one level deep, looked at, closed and written. It
//! goes over the rows of standard input, as `gate_replay` does. It is a library below a program of its own, since the toolchain's
//! own compiler builds that one and has no room for both in one.
#![tactic(auto)]

mod trees;

use anyhow::Result;
use gate_rows::{Answers, replay};
use std::alloc::Global;

/// The answers to the rows of this program.
struct OfRows;

impl Answers for OfRows {
    fn answer(alloc: Global, words: &str, input: &str) -> Result<Option<String>> {
        Ok(trees::answer(alloc, words, input))
    }
}

/// Goes over the rows of standard input.
///
/// # Errors
///
/// Where a row differs, and what an answer is refused for.
pub fn serve(rt: &HostRuntime) -> Result<()> {
    replay::<OfRows>(rt)
}
