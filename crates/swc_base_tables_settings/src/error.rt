//! Why a value was not read as assumptions.

use thiserror::Error;

/// Why a value was not read as assumptions.
#[derive(Clone, Copy, Debug, PartialEq, Eq, Error)]
pub enum AssumptionsError {
    /// It is no object.
    #[error("not an object")]
    NotObject,
    /// The first key with a fault is none of an assumption.
    #[error("unknown key")]
    UnknownKey,
    /// The first key with a fault has a value that is no boolean.
    #[error("not a boolean")]
    NotBool,
}
