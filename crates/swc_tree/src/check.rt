//! Checks, which look at a program and say whether it is to be handled.
ghost use Rattle.std.specs.Prelude.{◌≡◌};
ghost use Rattle.std.proofs.Common.{inl, inr};
ghost use Rattle.swc_tree.specs.Checks.{IsVerdict};

use swc_tree_modules::{Module, Script};

/// A check, which looks at a program and says whether it is to be handled. No call of one takes memory.
pub trait Check: Default {
    ghost use Rattle.std.specs.Prelude.{Bool};
    ghost use Rattle.swc_tree.specs.Checks.{Program};

    /// What a visit does: of the check before, the program and the check after.
    ghost visits: { Self → Program → Self → Type 0 };

    /// The verdict.
    ghost handles: { Self → Bool };

    /// Looks at a program.
    fn visit_module(&mut self, program: &Module)
        ensures { visits self.old (inl program.now) self.new };

    /// Looks at a program of the goal Script.
    fn visit_script(&mut self, program: &Script)
        ensures { visits self.old (inr program.now) self.new };

    /// Whether what was visited is to be handled.
    fn should_handle(&self) -> bool
        ensures { result ≡ handles self.now };
}

/// A program that a check can look at.
pub trait Checked {
    ghost use Rattle.swc_tree.specs.Checks.{Program};

    /// The program.
    ghost program: { Self → Program };

    /// Has a check look at the program.
    fn visit_by<C: Check>(&self, check: &mut C)
        ensures { C.visits check.old (program self.now) check.new };
}

impl Checked for Module {
    ghost program = { inl };

    fn visit_by<C: Check>(&self, check: &mut C) {
        check.visit_module(self);
    }
}

impl Checked for Script {
    ghost program = { inr };

    fn visit_by<C: Check>(&self, check: &mut C) {
        check.visit_script(self);
    }
}

/// Whether a program is to be handled: the verdict of a default check that visited it.
pub fn should_work<C: Check + Drop, T: Checked>(program: &T) -> bool
    ensures { IsVerdict C.is_default C.visits C.handles (T.program program.now) result }
{
    let mut check = C::default();
    program.visit_by(&mut check);
    check.should_handle()
}
