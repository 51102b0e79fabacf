//! A helper, by its number.

ghost use Rattle.std.specs.Prelude.{◌≡◌};
ghost use Rattle.swc_base_tables_helpers.specs.Table.{IsHelper};

use std::marker::Model;

/// A helper of the table. Contracts see it as its number, from 1 to 100.
#[derive(Clone, Copy)]
pub struct Helper {
    pub(crate) number: u8,
}

impl Model for Helper {
    ghost use Rattle.std.specs.Prelude.{ℕ};
    ghost use Rattle.std.specs.Coded.{coded_ℕ};

    ghost Value = { ℕ };

    ghost coded = { coded_ℕ };

    ghost use Rattle.swc_base_tables_helpers.specs.Table.{IsHelper};

    ghost view = { λ h. h.number };

    ghost invariant = { λ h. IsHelper h.number };

    ghost inverse = { λ n. record { number = n } };
}

impl Helper {
    /// The helper's number.
    pub fn number(self) -> u8
        ensures number { result ≡ self }
        ensures known { IsHelper self }
    {
        self.number
    }
}
