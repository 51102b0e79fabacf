//! Why a tree is not written with comments.
use std::alloc::AllocError;

/// Why a tree is not written.
#[derive(Clone, Copy, Debug, PartialEq, Eq)]
pub enum SetFault {
    NoMemory,
    /// A text in the tree is no token of its kind, or a node has no text: a type, a template with too few texts.
    NotSpelled,
    /// A comment is not where it has to be, which is our fault.
    NotSet,
    /// The text would have 2^32 bytes or more, less one.
    TooLong,
}

impl From<AllocError> for SetFault {
    ghost use Rattle.std.specs.Prelude.{◌≡◌};
    ghost use Rattle.text_commented.specs.declared.fault.SetFault.TheVariants.{NoMemory};

    ghost from_gives = { λ _ fault. fault ≡ NoMemory };

    fn from(_: AllocError) -> SetFault {
        SetFault::NoMemory
    }
}
