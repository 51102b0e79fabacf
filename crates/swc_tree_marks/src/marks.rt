//! Marks in a row, which take memory only where there are several.
ghost use Rattle.std.specs.Prelude.{◌≡◌, [], ◌∷◌, ◌++◌, IfOk, OnOk, OnErr};
ghost use Rattle.swc_tree_marks.specs.Listed.{listed};

use crate::mark::Mark;
use std::alloc::{AllocError, Global};
use std::{fmt, slice};
use swc_tree_items::Boxed;

/// Marks in a row, the oldest first.
///
/// No `SmallVec`, since each check above would load what is said of it.
#[derive(Drop)]
pub(crate) enum Marks {
    None(Global),
    One(Global, Mark),
    /// Behind a box, so that what nearly all identifiers have is small.
    Several(Boxed<Vec<Mark>>),
}

// Two marks in a row.
fn two(alloc: Global, first: Mark, second: Mark) -> Result<Marks, AllocError>
    ensures { IfOk result (λ marks. listed marks ≡ first ∷ second ∷ []) }
{
    let mut marks = Vec::with_capacity(alloc, 2)?;
    marks.push(first)?;
    marks.push(second)?;
    Ok(Marks::Several(Boxed::new(alloc, marks)?))
}

impl Marks {
    pub(crate) fn as_slice(&self) -> &[Mark]
        ensures { result.now ≡ listed self.now }
    {
        match self {
            Marks::None(_) => &[],
            Marks::One(_, mark) => slice::from_ref(mark),
            Marks::Several(marks) => marks.get().as_slice(),
        }
    }

    /// Puts a mark behind the others. Where memory is refused, they stay.
    pub(crate) fn push(&mut self, mark: Mark) -> Result<(), AllocError>
        ensures ok { OnOk result (listed self.new ≡ listed self.old ++ mark ∷ []) }
        ensures err { OnErr result (listed self.new ≡ listed self.old) }
    {
        match self {
            Marks::None(alloc) => {
                *self = Marks::One(*alloc, mark);
                Ok(())
            }
            Marks::One(alloc, first) => {
                *self = two(*alloc, *first, mark)?;
                Ok(())
            }
            Marks::Several(marks) => {
                marks.get_mut().push(mark)?;
                Ok(())
            }
        }
    }
}

impl Clone for Marks {
    ghost is_clone = { λ marks copy. listed copy ≡ listed marks };

    fn clone(&self) -> Result<Marks, AllocError> {
        match self {
            Marks::None(alloc) => Ok(Marks::None(*alloc)),
            Marks::One(alloc, mark) => Ok(Marks::One(*alloc, *mark)),
            Marks::Several(marks) => Ok(Marks::Several(marks.clone()?)),
        }
    }
}

impl fmt::Debug for Marks {
    fn fmt<W: fmt::Write>(&self, f: &mut fmt::Formatter<W>) -> fmt::Result {
        f.debug_list().entries(self.as_slice()).finish()
    }
}
