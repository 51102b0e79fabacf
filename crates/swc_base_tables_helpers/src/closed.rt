//! What each helper needs, as a set.

ghost use Rattle.std.specs.Prelude.{◌≡◌, ℕ, ◌↔◌, IsTrue};
ghost use Rattle.swc_base_tables_helpers.specs.Closure.{InClosure};
ghost use Rattle.swc_base_tables_helpers.specs.Sets.{Holds};

use crate::helper::Helper;

// The closure of each helper, from number 1 on.
static CLOSED: [u128; 100] = [
    1 << 1,
    1 << 2,
    1 << 3,
    1 << 4 | 1 << 2,
    1 << 5,
    1 << 6 | 1 << 11,
    1 << 7,
    1 << 8,
    1 << 9,
    1 << 10 | 1 << 11,
    1 << 11,
    1 << 12,
    1 << 13,
    1 << 14,
    1 << 15,
    1 << 16,
    1 << 17,
    1 << 18,
    1 << 19,
    1 << 20,
    1 << 21 | 1 << 14 | 1 << 19,
    1 << 22 | 1 << 12,
    1 << 23,
    1 << 24,
    1 << 25 | 1 << 15 | 1 << 19,
    1 << 26 | 1 << 16 | 1 << 19,
    1 << 27,
    1 << 28 | 1 << 12,
    1 << 29,
    1 << 30 | 1 << 14 | 1 << 18 | 1 << 87,
    1 << 31 | 1 << 15 | 1 << 18 | 1 << 87,
    1 << 32 | 1 << 16 | 1 << 18 | 1 << 87,
    1 << 33 | 1 << 66 | 1 << 88,
    1 << 34,
    1 << 35 | 1 << 2 | 1 << 3 | 1 << 51 | 1 << 56 | 1 << 74 | 1 << 76 | 1 << 77 | 1 << 79 | 1 << 80,
    1 << 36,
    1 << 37,
    1 << 38,
    1 << 39,
    1 << 40,
    1 << 41 | 1 << 42 | 1 << 70,
    1 << 42,
    1 << 43 | 1 << 66,
    1 << 44,
    1 << 45,
    1 << 46,
    1 << 47,
    1 << 48,
    1 << 49,
    1 << 50,
    1 << 51,
    1 << 52,
    1 << 53,
    1 << 54,
    1 << 55,
    1 << 56,
    1 << 57,
    1 << 58,
    1 << 59 | 1 << 38,
    1 << 60,
    1 << 61 | 1 << 62,
    1 << 62,
    1 << 63 | 1 << 5 | 1 << 79,
    1 << 64,
    1 << 65 | 1 << 38 | 1 << 42 | 1 << 70,
    1 << 66,
    1 << 67,
    1 << 68 | 1 << 2 | 1 << 3 | 1 << 52 | 1 << 56 | 1 << 80,
    1 << 69 | 1 << 2 | 1 << 3 | 1 << 53 | 1 << 56 | 1 << 80,
    1 << 70 | 1 << 42,
    1 << 71,
    1 << 72,
    1 << 73,
    1 << 74 | 1 << 2 | 1 << 3 | 1 << 51 | 1 << 56 | 1 << 80,
    1 << 75 | 1 << 2 | 1 << 4 | 1 << 51 | 1 << 57 | 1 << 80,
    1 << 76 | 1 << 79,
    1 << 77 | 1 << 76 | 1 << 79,
    1 << 78 | 1 << 38 | 1 << 41 | 1 << 42 | 1 << 65 | 1 << 70,
    1 << 79,
    1 << 80 | 1 << 2,
    1 << 81 | 1 << 6 | 1 << 11,
    1 << 82 | 1 << 33 | 1 << 42 | 1 << 50 | 1 << 66 | 1 << 88,
    1 << 83,
    1 << 84 | 1 << 13 | 1 << 19,
    1 << 85 | 1 << 13 | 1 << 19 | 1 << 87,
    1 << 86 | 1 << 87,
    1 << 87,
    1 << 88,
    1 << 89 | 1 << 5 | 1 << 42 | 1 << 63 | 1 << 79 | 1 << 88,
    1 << 90 | 1 << 2 | 1 << 80,
    1 << 91,
    1 << 92,
    1 << 93,
    1 << 94,
    1 << 95,
    1 << 96,
    1 << 97,
    1 << 98,
    1 << 99,
    1 << 100,
];

impl Helper {
    // The set of what this needs: the helper itself, and with each what it depends on.
    pub(crate) fn closed_set(self) -> u128
        ensures { (n : ℕ) → Holds result n ↔ InClosure self n }
    {
        CLOSED[self.number as usize - 1]
    }

    // The set of the helper alone.
    pub(crate) fn alone(self) -> u128
        ensures { (n : ℕ) → Holds result n ↔ (n ≡ self) }
    {
        1 << self.number
    }

    // Whether the helper is in a set.
    pub(crate) fn is_in(self, set: u128) -> bool
        ensures { IsTrue result ↔ Holds set self }
    {
        (set >> self.number) & 1 == 1
    }
}
