//! Which helpers a program was given, and how they get there.

ghost use Rattle.std.specs.Prelude.{◌≡◌, ℕ, ◌+◌, ◌↔◌, [], ◌∷◌, ◌++◌, Contains, IsTrue, IfOk, IfErr, OnErr, IsErrOf, true, false};
ghost use Rattle.swc_tree_marks.specs.Errors.{IsFreshError};
ghost use Rattle.swc_tree_marks.specs.Globals.{numbers, greatest};
ghost use Rattle.swc_base_tables_helpers.specs.Chosen.{KeepsForm};
ghost use Rattle.swc_base_tables_helpers.specs.Closure.{InClosure};
ghost use Rattle.swc_base_tables_helpers.specs.Sets.{Holds, Gains};

use crate::helper::Helper;
use std::marker::Model;
use swc_tree_marks::{Globals, Mark, MarkError};

/// What `Helpers` hold, to be kept and handed on by value.
#[derive(Clone, Copy, Debug)]
pub struct HelperData {
    mark: Mark,
    external: bool,
    enabled: u128,
}

impl Model for HelperData {
    ghost use Rattle.swc_base_tables_helpers.specs.Chosen.{Chosen};

    ghost Value = { Chosen };

    ghost view = { λ d. record { mark = d.mark; external = d.external; enabled = d.enabled } };

    ghost inverse = { λ c. record { mark = c.mark; external = c.external; enabled = c.enabled } };
}

/// The helpers that a program was given: the mark of their names, whether they are taken from a package or written out,
/// and which they are.
#[derive(Debug, Drop)]
pub struct Helpers {
    data: HelperData,
}

impl Model for Helpers {
    ghost use Rattle.swc_base_tables_helpers.specs.Chosen.{Chosen};

    ghost Value = { Chosen };

    ghost view = { λ h. h.data };
}

impl Helpers {
    /// No helper, under a fresh mark below the root.
    ///
    /// # Errors
    ///
    /// As `Mark::new`. The table of marks then stays as it was.
    pub fn new(globals: &mut Globals, external: bool) -> Result<Helpers, MarkError>
        ensures mark { IfOk result (λ helpers. helpers.mark ≡ greatest globals.old + 1) }
        ensures table { IfOk result (λ helpers. globals.new ≡ globals.old ++ (helpers.mark, 0) ∷ []) }
        ensures external { IfOk result (λ helpers. helpers.external ≡ external) }
        ensures none { IfOk result (λ helpers. helpers.enabled ≡ 0) }
        ensures spent { IsErrOf result MarkError.MarksSpent ↔ Contains (numbers globals.old) u32.MAX }
        ensures refusal { IfErr result IsFreshError }
        ensures unchanged { OnErr result (globals.new ≡ globals.old) }
    {
        let mark = Mark::new(globals)?;
        Ok(Helpers {
            data: HelperData {
                mark,
                external,
                enabled: 0,
            },
        })
    }

    /// The mark of the names of helpers.
    pub fn mark(&self) -> Mark
        ensures { result ≡ self.now.mark }
    {
        self.data.mark
    }

    /// Whether the helpers are taken from a package. Else they are written out.
    pub fn external(&self) -> bool
        ensures { result ≡ self.now.external }
    {
        self.data.external
    }

    /// What they hold.
    pub fn data(&self) -> HelperData
        ensures { result ≡ self.now }
    {
        self.data
    }

    /// The helpers that hold this.
    pub fn from_data(held: HelperData) -> Helpers
        ensures { result ≡ held }
    {
        Helpers { data: held }
    }

    /// Gives the program a helper, and where helpers are written out, all that it needs. From a package the helper comes
    /// alone.
    pub fn enable(&mut self, helper: Helper)
        ensures inline { self.old.external ≡ false → Gains self.old.enabled self.new.enabled (InClosure helper) }
        ensures alone { self.old.external ≡ true → Gains self.old.enabled self.new.enabled (λ other. other ≡ helper) }
        ensures form { KeepsForm self.old self.new }
    {
        let gained = if self.data.external {
            helper.alone()
        } else {
            helper.closed_set()
        };
        self.data.enabled |= gained;
    }

    /// Whether the program was given a helper.
    pub fn is_enabled(&self, helper: Helper) -> bool
        ensures { IsTrue result ↔ Holds self.now.enabled helper }
    {
        helper.is_in(self.data.enabled)
    }

    /// Gives the program the helpers of another. What they depend on is not added again.
    pub fn extend_from(&mut self, other: &Helpers)
        ensures set { Gains self.old.enabled self.new.enabled (Holds other.now.enabled) }
        ensures form { KeepsForm self.old self.new }
    {
        self.data.enabled |= other.data.enabled;
    }
}
