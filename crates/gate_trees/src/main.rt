//! What the gate asks of trees that no program leads to, as rows of one program (`gate_trees_rows`).
#![tactic(auto)]

use anyhow::Result;
use gate_trees_rows::serve;

fn main(rt: HostRuntime) -> Result<()> {
    serve(&rt)
}
