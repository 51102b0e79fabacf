//! Why calls on marks and passes are refused.
ghost use Rattle.std.specs.Prelude.{◌≡◌};
ghost use Rattle.swc_tree_marks.specs.Errors.{IsFreshError, IsSameRefusal, name_of};
ghost use Rattle.swc_tree_marks.specs.declared.error.MarkError.TheVariants as mark;
ghost use Rattle.swc_tree_marks.specs.declared.error.PassError.TheVariants as pass;

use std::alloc::{AllocError, AllocFailed};
use thiserror::Error;

/// Memory was refused.
#[derive(Clone, Copy, Debug, PartialEq, Eq, Error)]
#[error("no memory")]
pub struct NoMemory;

impl From<AllocError> for NoMemory {
    fn from(_refused: AllocError) -> NoMemory {
        NoMemory
    }
}

impl<T: Drop> From<AllocFailed<T>> for NoMemory {
    fn from(_refused: AllocFailed<T>) -> NoMemory {
        NoMemory
    }
}

/// Why a table of marks was refused, or a fresh mark.
#[derive(Clone, Copy, Debug, PartialEq, Eq, Error)]
pub enum MarkError {
    /// The greatest number is taken.
    #[error("marks are spent")]
    MarksSpent,
    /// Memory was refused.
    #[error("no memory")]
    NoMemory,
    /// The pair at this index is the first that no table may have there.
    #[error("bad table at {0}")]
    BadTable(usize),
}

impl From<AllocError> for MarkError {
    ghost from_gives = { λ _ e. e ≡ mark.NoMemory };

    fn from(_refused: AllocError) -> MarkError {
        MarkError::NoMemory
    }
}

impl<T: Drop> From<AllocFailed<T>> for MarkError {
    ghost from_gives = { λ _ e. e ≡ mark.NoMemory };

    fn from(_refused: AllocFailed<T>) -> MarkError {
        MarkError::NoMemory
    }
}

impl From<NoMemory> for MarkError {
    ghost from_gives = { λ _ e. e ≡ mark.NoMemory };

    fn from(_refused: NoMemory) -> MarkError {
        MarkError::NoMemory
    }
}

/// Why a pass was refused.
#[derive(Clone, Copy, Debug, PartialEq, Eq, Error)]
pub enum PassError {
    /// Memory was refused.
    #[error("no memory")]
    NoMemory,
    /// The greatest number of a mark is taken.
    #[error("marks are spent")]
    MarksSpent,
    /// The counter of made names is at its end.
    #[error("counter is spent")]
    CounterSpent,
    /// What stands where a value is assigned can take none.
    #[error("not assignable")]
    NotAssignable,
    /// A declaration of a type, an enum or a namespace stands in the tree.
    #[error("types are left")]
    TypesLeft,
}

impl PassError {
    /// The refusal of a fresh mark, as the refusal of the pass that wanted the mark.
    pub fn from_fresh(error: MarkError) -> PassError
        requires { IsFreshError error }
        ensures { IsSameRefusal error result }
    {
        match error {
            MarkError::MarksSpent => PassError::MarksSpent,
            MarkError::NoMemory => PassError::NoMemory,
            MarkError::BadTable(_) => unreachable!(),
        }
    }

    /// The variant's name.
    pub fn name(&self) -> &'static str
        ensures { result.now ≡ name_of self.now }
    {
        match self {
            PassError::NoMemory => "NoMemory",
            PassError::MarksSpent => "MarksSpent",
            PassError::CounterSpent => "CounterSpent",
            PassError::NotAssignable => "NotAssignable",
            PassError::TypesLeft => "TypesLeft",
        }
    }
}

impl From<AllocError> for PassError {
    ghost from_gives = { λ _ e. e ≡ pass.NoMemory };

    fn from(_refused: AllocError) -> PassError {
        PassError::NoMemory
    }
}

impl<T: Drop> From<AllocFailed<T>> for PassError {
    ghost from_gives = { λ _ e. e ≡ pass.NoMemory };

    fn from(_refused: AllocFailed<T>) -> PassError {
        PassError::NoMemory
    }
}

impl From<NoMemory> for PassError {
    ghost from_gives = { λ _ e. e ≡ pass.NoMemory };

    fn from(_refused: NoMemory) -> PassError {
        PassError::NoMemory
    }
}
