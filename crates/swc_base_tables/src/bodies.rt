//! The bodies of helpers, as statements.
ghost use Rattle.std.specs.Prelude.{◌≡◌, ℕ, ◌==◌, ◌↔◌, ◌&&◌, Some, None, IsTrue, OnOk, OnErr, if◌then◌else◌, not};
ghost use Rattle.swc_base_tables_program.specs.Given.{Covers, body_of, have_types};
ghost use Rattle.swc_base_tables.specs.Helpers.{AreStatements};

use std::alloc::Global;
use std::marker::Model;
use swc_base_tables_helpers::{Helper, Helpers};
use swc_base_tables_program::Bodies;
use swc_tree_handle::{Trees, class};
use swc_tree_marks::NoMemory;

/// The bodies of helpers: of each the statements that are written out for it. Contracts see them as lists of nodes.
#[derive(Drop)]
pub struct HelperBodies {
    bodies: Bodies,
}

impl Model for HelperBodies {
    ghost use Rattle.std.specs.Coded.{codes};
    ghost use Rattle.swc_base_tables_program.specs.contracts.bodies.Bodies as stored;
    ghost use Rattle.swc_base_tables_program.specs.declared.bodies.Bodies.{Bodies};
    ghost use Rattle.swc_base_tables.specs.Helpers.{AreStatements};

    ghost Value = { Bodies };

    ghost coded = { Prim.hlevel (codes, stored.the_row.coded) };

    ghost view = { λ b. b.bodies };

    ghost invariant = { λ b. AreStatements b.bodies };
}

impl HelperBodies {
    /// No body of any helper. It takes no memory.
    #[tactic(auto, using(crate::proofs::Fit::none_fits))]
    pub fn new(alloc: Global) -> HelperBodies
        ensures { (helper : ℕ) → body_of result helper ≡ None }
    {
        HelperBodies {
            bodies: Bodies::new(alloc),
        }
    }

    /// Gives a helper a body, in place of the one that it had.
    ///
    /// # Errors
    ///
    /// `NoMemory` where memory is refused: each helper then has the body that it had, and the one given is dropped.
    #[tactic(auto, using(crate::proofs::Fit::inserted_fits, crate::proofs::Fit::kept_fits))]
    pub fn insert(&mut self, helper: Helper, body: Trees<class::Stmt>) -> Result<(), NoMemory>
        ensures ok { OnOk result ((other : ℕ) → body_of self.new other ≡ (if other == helper then Some body else body_of self.old other)) }
        ensures err { OnErr result ((other : ℕ) → body_of self.new other ≡ body_of self.old other) }
    {
        self.bodies.insert(helper, body.into_nodes())
    }

    /// Whether each helper that a program was given has a body. It takes no memory.
    pub fn covers(&self, helpers: &Helpers) -> bool
        ensures { IsTrue result ↔ Covers self.now helpers.now.enabled }
    {
        self.bodies.covers(helpers)
    }

    // Whether declarations of types stand in a body that goes in: of a helper that a program was given and that is written out.
    pub(crate) fn bring_types(&self, helpers: &Helpers) -> bool
        ensures { result ≡ (not helpers.now.external && have_types self.now helpers.now.enabled) }
    {
        !helpers.external() && self.bodies.have_types(helpers)
    }

    // The bodies as nodes.
    pub(crate) fn into_bodies(self) -> Bodies
        ensures same { result ≡ self }
        ensures statements { AreStatements result }
    {
        let HelperBodies { bodies } = self;
        bodies
    }
}
