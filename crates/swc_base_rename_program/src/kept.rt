//! Ids that keep their texts.
ghost use Rattle.std.specs.Prelude.{◌≡◌};
ghost use Rattle.swc_base_rename_program.specs.Kept.{is_kept};

use crate::top_mark::TopMark;
use std::collections::HashSet;
use swc_tree_marks::Id;

/// The ids that keep their texts.
#[derive(Clone, Copy)]
pub struct Kept<'a> {
    /// Those that the renamer preserves.
    pub preserved: &'a HashSet<Id>,
    /// Where something reads names, those too whose outer mark descends from this one.
    pub below: Option<TopMark<'a>>,
}

impl Kept<'_> {
    /// Whether an id is one of them.
    pub fn keeps(&self, id: &Id) -> bool
        ensures { result ≡ is_kept self.now id.now }
    {
        if self.preserved.contains(id) {
            return true;
        }
        match &self.below {
            Some(top) => top.covers(id),
            None => false,
        }
    }
}
