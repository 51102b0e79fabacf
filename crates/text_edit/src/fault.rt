//! Why a text is not edited.
use std::alloc::AllocError;

/// Why a text is not edited.
#[derive(Clone, Copy, Debug, PartialEq, Eq)]
pub enum EditFault {
    NoMemory,
    /// The text is not that of the tree before the change.
    OtherText,
    /// What was written is not the text of the tree after it. That is our fault, or the tree has no text; it may be printed anew.
    NotTheText,
}

impl From<AllocError> for EditFault {
    ghost use Rattle.std.specs.Prelude.{◌≡◌};
    ghost use Rattle.text_edit.specs.declared.fault.EditFault.TheVariants.{NoMemory};

    ghost from_gives = { λ _ fault. fault ≡ NoMemory };

    fn from(_: AllocError) -> EditFault {
        EditFault::NoMemory
    }
}
