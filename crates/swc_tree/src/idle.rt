//! The pass that does nothing.
ghost use Rattle.std.specs.Prelude.{◌≡◌};

use crate::pass::JsPass;
use std::alloc::Global;
use swc_tree_marks::{Globals, PassError};
use swc_tree_modules::{Module, Script};

/// The pass that leaves every program as it is.
#[derive(Clone, Copy, Debug, Default)]
pub struct Noop;

impl JsPass for Noop {
    ghost visits = { λ pass table before kept held after. (kept ≡ pass) × (held ≡ table) × (after ≡ before) };

    ghost visits_script = { λ pass table before kept held after. (kept ≡ pass) × (held ≡ table) × (after ≡ before) };

    ghost refuses = { λ pass table before kept held error. ⊥ };

    ghost refuses_script = { λ pass table before kept held error. ⊥ };

    fn visit_mut_module(
        &mut self,
        alloc: Global,
        globals: &mut Globals,
        program: &mut Module,
    ) -> Result<(), PassError> {
        Ok(())
    }

    fn visit_mut_script(
        &mut self,
        alloc: Global,
        globals: &mut Globals,
        program: &mut Script,
    ) -> Result<(), PassError> {
        Ok(())
    }
}
