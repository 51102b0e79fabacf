//! Rows of what a renamer is to know of a program.
use crate::programs::class_of;
use anyhow::{Result, bail};
use gate_renamers::read_off;
use jsbase_reader::read_bytes;
use std::alloc::Global;

/// What is read off the program of a line.
pub fn answer(alloc: Global, goal: &str, input: &str) -> Result<String> {
    let Ok(envelope) = read_bytes(alloc, class_of(goal)?, input.as_bytes()) else {
        bail!("a line is no envelope of such a program, or memory was refused");
    };
    Ok(read_off(alloc, &envelope.tree)?)
}
