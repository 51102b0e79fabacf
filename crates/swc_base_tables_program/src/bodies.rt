//! The bodies of helpers.
ghost use Rattle.std.specs.Prelude.{◌≡◌, ℕ, ◌==◌, ◌↔◌, [], None, Some, IsTrue, IfOk, OnOk, OnErr, is_some, unwrap_or, if◌then◌else◌};
ghost use Rattle.std.specs.List.{list_any};
ghost use Rattle.swc_tree_spaces.specs.Spaces.{has_types as has_any};
ghost use Rattle.swc_base_tables_program.specs.Given.{Covers, body_of, body_or_none, brings_types as brings_any, have_types as have_any};

use std::alloc::Global;
use std::collections::BTreeMap;
use swc_base_tables_helpers::{Helper, Helpers};
use swc_tree_has_types::any_has_types;
use swc_tree_items::Items;
use swc_tree_marks::NoMemory;
use swc_tree_node::Node;

/// The bodies of helpers: of each the statements that are written out for it.
#[derive(Drop)]
pub struct Bodies {
    pub(crate) by_number: BTreeMap<u8, Items<Node>>,
}

impl Bodies {
    /// No body of any helper. It takes no memory.
    pub fn new(alloc: Global) -> Bodies
        ensures { (helper : ℕ) → body_of result helper ≡ None }
    {
        Bodies {
            by_number: BTreeMap::new(alloc),
        }
    }

    /// Gives a helper a body, in place of the one that it had.
    ///
    /// # Errors
    ///
    /// `NoMemory` where memory is refused: each helper then has the body that it had, and the one given is dropped.
    pub fn insert(&mut self, helper: Helper, body: Items<Node>) -> Result<(), NoMemory>
        ensures ok { OnOk result ((other : ℕ) → body_of self.new other ≡ (if other == helper then Some body else body_of self.old other)) }
        ensures err { OnErr result ((other : ℕ) → body_of self.new other ≡ body_of self.old other) }
    {
        self.by_number.insert(helper.number(), body)?;
        Ok(())
    }

    // Whether a helper has a body.
    fn has(&self, helper: Helper) -> bool
        ensures { result ≡ is_some (body_of self.now helper) }
    {
        self.by_number.contains_key(&helper.number())
    }

    // Takes the body of a helper out; where it has none there is no statement.
    pub(crate) fn take(&mut self, alloc: Global, helper: Helper) -> Items<Node>
        ensures taken { result ≡ unwrap_or (body_of self.old helper) [] }
        ensures left { (other : ℕ) → body_of self.new other ≡ (if other == helper then None else body_of self.old other) }
    {
        match self.by_number.remove(&helper.number()) {
            Some(body) => body,
            None => Items::new(alloc),
        }
    }

    /// Whether each helper that a program was given has a body. It takes no memory.
    pub fn covers(&self, helpers: &Helpers) -> bool
        ensures { IsTrue result ↔ Covers self.now helpers.now.enabled }
    {
        for helper in Helper::all() {
            if helpers.is_enabled(helper) && !self.has(helper) {
                return false;
            }
        }
        true
    }

    // Whether types stand in the body of a helper.
    fn has_types(&self, helper: Helper) -> bool
        ensures { result ≡ list_any has_any (body_or_none self.now helper) }
    {
        match self.by_number.get(&helper.number()) {
            Some(body) => any_has_types(body.as_slice()),
            None => false,
        }
    }

    // Whether the helper is one that a program was given, with types in its body.
    fn brings_types(&self, helpers: &Helpers, helper: Helper) -> bool
        ensures { result ≡ brings_any self.now helpers.now.enabled helper }
    {
        helpers.is_enabled(helper) && self.has_types(helper)
    }

    /// Whether declarations of types stand in a body of a helper that a program was given. It takes no memory.
    pub fn have_types(&self, helpers: &Helpers) -> bool
        ensures { result ≡ have_any self.now helpers.now.enabled }
    {
        for helper in Helper::all() {
            if self.brings_types(helpers, helper) {
                return true;
            }
        }
        false
    }
}
