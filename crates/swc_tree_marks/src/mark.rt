//! Marks.
ghost use Rattle.std.specs.Prelude.{◌≡◌};

use std::marker::Model;

/// A mark, which a pass puts on names to tell those of one scope or origin from others.
///
/// Contracts see a mark as its number. Marks form a tree under the root, which is 0; a `Globals` keeps
/// the parent of each.
#[derive(Clone, Copy, Debug, Default, PartialEq, Eq, PartialOrd, Ord, Hash)]
pub struct Mark {
    number: u32,
}

impl Model for Mark {
    ghost use Rattle.std.specs.Prelude.{ℕ};
    ghost use Rattle.std.specs.Coded.{coded_ℕ};

    ghost Value = { ℕ };

    ghost coded = { coded_ℕ };

    ghost view = { λ m. m.number };

    ghost inverse = { λ n. record { number = n } };
}

impl Mark {
    /// The root of all marks.
    pub fn root() -> Mark
        ensures { result ≡ 0 }
    {
        Mark { number: 0 }
    }

    /// The mark of a number.
    pub fn from_u32(number: u32) -> Mark
        ensures { result ≡ number }
    {
        Mark { number }
    }

    /// The mark's number.
    pub fn as_u32(self) -> u32
        ensures { result ≡ self }
    {
        self.number
    }
}
