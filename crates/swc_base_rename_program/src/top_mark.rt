//! The mark of the names that a program declares.
ghost use Rattle.std.specs.Prelude.{◌≡◌};
ghost use Rattle.swc_tree_marks.specs.Globals.{IsTable};
ghost use Rattle.swc_base_rename_program.specs.Descends.{descends_from};

use swc_tree_marks::{Globals, Id, Mark};

/// The mark of the names that a program declares, and the table of marks.
#[derive(Clone, Copy)]
pub struct TopMark<'a> {
    pub mark: Mark,
    pub globals: &'a Globals,
}

impl<'a> TopMark<'a> {
    /// A mark, with the table that it is looked up in.
    pub fn new(mark: Mark, globals: &'a Globals) -> TopMark<'a>
        ensures mark { result.mark ≡ mark }
        ensures table { result.globals.now ≡ globals.now }
        ensures well_formed { IsTable globals.now }
    {
        let _ = globals.table();
        TopMark { mark, globals }
    }

    /// Whether the outer mark of an id descends from it.
    pub fn covers(&self, id: &Id) -> bool
        ensures { result ≡ descends_from self.now.globals.now self.now.mark id.now }
    {
        let _ = self.globals.table();
        id.1.outer().is_descendant_of(self.globals, self.mark)
    }
}
