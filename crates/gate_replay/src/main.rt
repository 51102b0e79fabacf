//! What the gate asks of the whole repository beside its proofs, as rows of one program; and what is measured by hand.
//!
//! Without arguments it goes over the rows of standard input (`gate_rows`). With arguments it measures (`measure`) or runs a work
//! that is refused memory (`refuse`).
#![tactic(auto)]

mod analysed;
mod answers;
mod engine;
mod judged;
mod kinds;
mod library;
mod measure;
mod plain;
mod programs;
mod refuse;
mod serving;
mod streams;
mod texts;
mod units;

use answers::OfRows;
use anyhow::Result;
use gate_rows::{arguments, replay};

// Does what the program's arguments ask; fails where a row differs or an argument names nothing, and for what an answer is refused.
fn serve(rt: &HostRuntime, arguments: &[String]) -> Result<()> {
    let Some(first) = arguments.first() else {
        return replay::<OfRows>(rt);
    };
    match first.as_str() {
        "refuse" => refuse::serve(rt, arguments),
        word => measure::serve(rt, word),
    }
}

fn main(rt: HostRuntime) -> Result<()> {
    let given = arguments(&rt)?;
    serve(&rt, given.as_slice())
}
