//! Syntax contexts: the marks on a name.
ghost use Rattle.std.specs.Prelude.{◌≡◌, Some, [], ◌∷◌, ◌++◌, IfOk, OnOk, OnErr, nat_eq, refl};
ghost use Rattle.std.specs.Hash as fed;
ghost use Rattle.std.specs.Cmp.{partial_equiv_from_equiv};
ghost use Rattle.std.specs.Cmp.Lexicographic.{pointwise, slice_cmp, nat_list_cmp_total, nat_list_eq_equiv, texts_po, texts_ties};
ghost use Rattle.std.specs.Cmp.Rules.{hashing};
ghost use Rattle.std.specs.Ordering.{nat_cmp};
ghost use borrow.Author.Rules.{rules};
ghost use Rattle.swc_tree_marks.specs.Contexts.{outer_of};

use crate::mark::Mark;
use crate::marks::Marks;
use std::alloc::{AllocError, Global};
use std::cmp::Ordering;
use std::hash::{Hash, Hasher};
use std::marker::Model;

/// The marks that were put on a name, the oldest first. Contracts see a context as that list.
///
/// A context of no mark or one, as nearly all are, takes no memory.
#[derive(Debug, Drop)]
pub struct SyntaxContext {
    marks: Marks,
}

impl Model for SyntaxContext {
    ghost use Rattle.std.specs.Prelude.{List, ℕ};
    ghost use Rattle.swc_tree_marks.specs.Listed.{listed};

    ghost Value = { List ℕ };

    ghost view = { λ c. listed c.marks };
}

impl SyntaxContext {
    /// The context of a name that no pass has marked.
    pub fn empty(alloc: Global) -> SyntaxContext
        ensures { result ≡ [] }
    {
        SyntaxContext {
            marks: Marks::None(alloc),
        }
    }

    /// Puts a mark on top of the others. Where memory is refused, the context stays.
    pub fn apply_mark(&mut self, mark: Mark) -> Result<(), AllocError>
        ensures ok { OnOk result (self.new ≡ self.old ++ mark ∷ []) }
        ensures err { OnErr result (self.new ≡ self.old) }
    {
        self.marks.push(mark)?;
        Ok(())
    }

    /// The mark that was put on last, or the root.
    pub fn outer(&self) -> Mark
        ensures { result ≡ outer_of self.now }
    {
        match self.marks().last() {
            Some(mark) => *mark,
            None => Mark::root(),
        }
    }

    /// The marks, the oldest first.
    pub fn marks(&self) -> &[Mark]
        ensures { result.now ≡ self.now }
    {
        self.marks.as_slice()
    }
}

impl Clone for SyntaxContext {
    ghost is_clone = { λ context copy. copy ≡ context };

    fn clone(&self) -> Result<SyntaxContext, AllocError> {
        Ok(SyntaxContext {
            marks: self.marks.clone()?,
        })
    }
}

impl PartialEq for SyntaxContext {
    ghost eq = { pointwise nat_eq };

    ghost laws = { partial_equiv_from_equiv nat_list_eq_equiv };

    fn eq(&self, other: &SyntaxContext) -> bool {
        self.marks() == other.marks()
    }
}

impl Eq for SyntaxContext {
    ghost laws = { nat_list_eq_equiv };
}

impl PartialOrd for SyntaxContext {
    ghost partial_cmp = { λ x y. Some (slice_cmp nat_cmp x y) };

    ghost laws = { texts_po };

    fn partial_cmp(&self, other: &SyntaxContext) -> Option<Ordering> {
        Some(self.cmp(other))
    }
}

impl Ord for SyntaxContext {
    ghost cmp = { slice_cmp nat_cmp };

    ghost total = { nat_list_cmp_total };

    ghost matches_partial_cmp = { λ x y. refl };

    ghost matches_eq = { texts_ties };

    fn cmp(&self, other: &SyntaxContext) -> Ordering {
        self.marks().cmp(&other.marks())
    }
}

impl Hash for SyntaxContext {
    ghost hash_input = { fed.slice fed.u32 };

    ghost respects_eq = { Prim.search (hashing, rules) };

    fn hash<H: Hasher>(&self, state: &mut H) {
        self.marks().hash(state);
    }
}
