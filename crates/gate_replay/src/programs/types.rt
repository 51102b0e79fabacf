//! Whether declarations of types stand in programs.
use anyhow::Result;
use gate_rows::{Given, Program};
use std::alloc::Global;
use std::fmt::Write;
use swc_tree::{types_in_module, types_in_script};

/// Says whether any stand in the program.
pub fn answer(alloc: Global, given: &Given) -> Result<String> {
    let any = match &given.program {
        Program::Module(module) => types_in_module(module),
        Program::Script(script) => types_in_script(script),
    };
    Ok(format!(in alloc; "{any}")?)
}
