//! Why there is no answer.
ghost use Rattle.std.specs.Prelude.{◌≡◌};
ghost use Rattle.mucwathi_order.specs.Faults.{of_text as fault_of_text};

use std::alloc::AllocError;
use swc_tree_marks::PassError;
use text_source::TextFault;

/// Why nothing was made of a text.
#[derive(Clone, Copy, Debug, PartialEq, Eq)]
pub enum RunFault {
    /// The text is not read.
    Text(TextFault),
    /// A pass was refused, or memory was.
    Refused(PassError),
    /// The answer has no text.
    NotWritten,
    /// The layout of the source can't be kept: the answer may still be written anew.
    NotKept,
}

/// Why nothing is said of two texts.
#[derive(Clone, Copy, Debug, PartialEq, Eq)]
pub enum JudgeFault {
    /// The first is not read.
    Before(TextFault),
    /// The second is not read.
    After(TextFault),
    /// The judge was refused, or memory was.
    Refused(PassError),
}

impl RunFault {
    /// That a text is not read: want of memory is a refusal.
    pub fn of_text(fault: TextFault) -> RunFault
        ensures { result ≡ fault_of_text fault }
    {
        match fault {
            TextFault::NoMemory => RunFault::Refused(PassError::NoMemory),
            fault => RunFault::Text(fault),
        }
    }
}

impl From<AllocError> for RunFault {
    ghost use Rattle.std.specs.Prelude.{◌≡◌};
    ghost use Rattle.swc_tree_marks.specs.declared.error.PassError.TheVariants.{NoMemory};
    ghost use Rattle.mucwathi_order.specs.declared.fault.RunFault.TheVariants.{Refused};

    ghost from_gives = { λ _ fault. fault ≡ Refused NoMemory };

    fn from(_refused: AllocError) -> RunFault {
        RunFault::Refused(PassError::NoMemory)
    }
}
