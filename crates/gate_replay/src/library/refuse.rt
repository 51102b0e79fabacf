//! Works of calls that may be refused memory.
use crate::library::works::{Finished, Injected, Inserted, Made, Named};
use anyhow::{Result, bail};
use gate_rows::{Asked, Said};
use std::alloc::Global;

/// Says of the work of a row what is asked.
pub fn reply(alloc: Global, work: &str, words: &str, asked: &Asked) -> Result<Said> {
    let input = asked.input.as_str();
    match work {
        "make" => asked.of(alloc, Made::of_row(alloc, words, input)),
        "name" => asked.of(alloc, Named::of_row(alloc, words)),
        "insert" => asked.of(alloc, Inserted::of_row(alloc, input)),
        "inject" => asked.of(alloc, Injected::of_row(alloc, words, input)),
        "finish" => asked.of(alloc, Finished::of_row(alloc, words, input)),
        _ => bail!("the work is jsbase, pass, make, name, insert, inject or finish"),
    }
}
