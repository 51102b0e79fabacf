//! What the gate asks of JavaScript texts: rows of `read_text`, and of `print_text`, `print_text_with_comments` and `edit_text` above it
//! (`words`), of trees that a text would have (`trees`), and of `mucwathi` (`commands`). With arguments it runs a work that is refused
//! memory (`refuse`).
//!
//! Standard input has rows. A row begins with its words; then come the lines of a text, each behind `> `, and those of what is
//! wanted, each behind `= `. Of two texts a line `> ====` stands between. In a text `⟨0D⟩` is the byte 13. Empty lines, and those that
//! begin with `#`, are for people.
//!
//! Of `mucwathi` the words are those of a command line; for `judge` the lines of the second text stand behind `< `. Wanted are, too,
//! those of a source map, behind `@ `, those that are told, behind `! `, and a status but 0, behind `? `. A line of the text behind
//! `^ `, and one that is written behind `v `, has many levels: `^ 3 ( x ) ;` is `> (((x)));`.
#![tactic(auto)]

mod commands;
mod commented;
mod edit;
mod levels;
mod mutants;
mod print;
mod read;
mod refuse;
mod rows;
mod shifts;
mod show;
mod trees;
mod words;

use anyhow::{Result, bail};
use std::env;

// Does what the program's arguments ask; fails where a row differs or an argument names nothing, and for what an answer is refused.
fn serve(rt: &HostRuntime, arguments: &[String]) -> Result<()> {
    match arguments {
        [] => rows::replay(rt),
        [word, work, words] if word.as_str() == "refuse" => {
            refuse::serve(rt, work.as_str(), words.as_str())
        }
        _ => bail!("usage: gate_text [refuse WORK ROW]"),
    }
}

fn arguments(rt: &HostRuntime) -> Result<Vec<String>> {
    let mut given = Vec::new(rt.alloc());
    for argument in env::args(rt)?.skip(1) {
        given.push(argument)?;
    }
    Ok(given)
}

fn main(rt: HostRuntime) -> Result<()> {
    let given = arguments(&rt)?;
    serve(&rt, given.as_slice())
}
