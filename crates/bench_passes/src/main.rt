//! The jobs that users of this software wait for, on programs of real shape: `bench_passes WORKLOAD SEED FILES COPIES`.
//!
//! Standard input is the envelope of a module. A file is so many copies of it, one behind the other, in which names are called
//! anew by the seed; a workload goes over so many files, no two alike, and prints a digest of all that it makes of them. `all` runs
//! each workload.
#![tactic(auto)]

mod bindings;
mod copies;
mod digest;
mod files;
mod lowered;
mod random;
mod workloads;

use anyhow::{Result, bail};
use files::Source;
use gate_rows::arguments;
use std::alloc::Global;
use std::io::Read;
use workloads::{Sizes, Workload, run, workloads_named};

// What the words ask.
#[derive(Clone, Copy)]
struct Asked {
    workloads: &'static [Workload],
    seed: u32,
    sizes: Sizes,
}

// The number that a word writes.
fn number(word: &str) -> Result<u32> {
    match word.parse() {
        Ok(number) => Ok(number),
        Err(_) => bail!("no number below 2^32: {word}"),
    }
}

fn read_words(words: &[String]) -> Result<Asked> {
    let [workload, seed, files, copies] = words else {
        bail!("usage: bench_passes WORKLOAD SEED FILES COPIES");
    };
    let Some(workloads) = workloads_named(workload.as_str()) else {
        bail!("no workload has that name");
    };
    Ok(Asked {
        workloads,
        seed: number(seed.as_str())?,
        sizes: Sizes {
            files: number(files.as_str())?,
            copies: number(copies.as_str())?,
        },
    })
}

// The digest of what a workload makes of the files of an input.
fn digest_of(alloc: Global, asked: Asked, workload: Workload, input: &[u8]) -> Result<u64> {
    let mut source = Source::read(alloc, asked.seed, input)?;
    run(alloc, workload, asked.sizes, &mut source)
}

// Writes the digest of each workload.
fn tell(rt: &HostRuntime, asked: Asked, input: &[u8]) -> Result<()> {
    for workload in asked.workloads {
        let digest = digest_of(rt.alloc(), asked, *workload, input)?;
        println!(rt; "{digest:016x}")?;
    }
    Ok(())
}

fn main(rt: HostRuntime) -> Result<()> {
    let words = arguments(&rt)?;
    let asked = read_words(words.as_slice())?;
    let mut input = Vec::new(rt.alloc());
    rt.stdin().read_to_end(&mut input)?;
    tell(&rt, asked, input.as_slice())
}
