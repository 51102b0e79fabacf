//! A check over programs.
use anyhow::Result;
use gate_rows::{Given, Program};
use std::alloc::Global;
use std::fmt::Write;
use swc_tree::{Check, Module, Script, should_work};

/// A check that wants to see programs with items.
#[derive(Default, Drop)]
pub struct HasItems {
    seen: bool,
}

impl Check for HasItems {
    ghost visits = { λ before program after. Unit {0} };

    ghost handles = { λ check. check.seen };

    fn visit_module(&mut self, program: &Module) {
        self.seen = !program.body.is_empty();
    }

    fn visit_script(&mut self, program: &Script) {
        self.seen = !program.body.is_empty();
    }

    fn should_handle(&self) -> bool {
        self.seen
    }
}

/// Says whether the check wants the program to be handled.
pub fn answer(alloc: Global, given: &Given) -> Result<String> {
    let works = match &given.program {
        Program::Module(module) => should_work::<HasItems, Module>(module),
        Program::Script(script) => should_work::<HasItems, Script>(script),
    };
    Ok(format!(in alloc; "{works}")?)
}
