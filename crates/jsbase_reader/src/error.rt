//! Why a tree could not be read, and how a fault is passed outwards.
ghost use Rattle.std.specs.Prelude.{[], Err};
ghost use Rattle.jsbase_form.specs.Reads.{Read, at};
ghost use Rattle.jsbase_form.specs.Steps.{part_of};
ghost use Rattle.jsbase_reader.specs.Answers.{Gives};

use jsbase_form::{FaultPath, Step};
use std::alloc::{AllocError, AllocFailed, Global};
use thiserror::Error;

/// Why a tree could not be read.
#[derive(Debug, Drop, Error)]
pub enum ReadError {
    /// Memory was refused.
    #[error("refused: NoMemory")]
    NoMemory,
    /// The value is no tree: the path to the first fault.
    #[error("not a tree: {0}")]
    Fault(FaultPath),
}

impl From<AllocError> for ReadError {
    ghost use Rattle.jsbase_reader.specs.declared.error.ReadError.TheVariants.{NoMemory};
    ghost use Rattle.std.specs.Prelude.{◌≡◌};

    ghost from_gives = { λ _ e. e ≡ NoMemory };

    fn from(_refused: AllocError) -> ReadError {
        ReadError::NoMemory
    }
}

impl<T: Drop> From<AllocFailed<T>> for ReadError {
    ghost use Rattle.jsbase_reader.specs.declared.error.ReadError.TheVariants.{NoMemory};
    ghost use Rattle.std.specs.Prelude.{◌≡◌};

    ghost from_gives = { λ _ e. e ≡ NoMemory };

    fn from(_refused: AllocFailed<T>) -> ReadError {
        ReadError::NoMemory
    }
}

// A fault of the value itself.
pub(crate) fn fault<T>(alloc: Global) -> Result<T, ReadError>
    ensures { Gives result (Err []) }
{
    Err(ReadError::Fault(FaultPath::here(alloc)))
}

// What was read of the part that `step` leads to, with a fault as seen from the whole.
pub(crate) fn under<T: Drop>(step: Step, read: Result<T, ReadError>) -> Result<T, ReadError>
    ensures { (r : Read T) → Gives read r → Gives result (at (part_of step) r) }
{
    match read {
        Ok(value) => Ok(value),
        Err(ReadError::NoMemory) => Err(ReadError::NoMemory),
        Err(ReadError::Fault(mut path)) => {
            path.push_outer(step)?;
            Err(ReadError::Fault(path))
        }
    }
}
