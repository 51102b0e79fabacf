//! Positions between two others.
ghost use Rattle.std.specs.Prelude.{◌↔◌, IsTrue};
ghost use Rattle.swc_base_rename_analysis.specs.Between.{AreAscending, IsFirstFrom, OneBetween};

// The index of the first position that is not before the start.
fn first_from(positions: &[usize], start: usize) -> usize
    requires { AreAscending positions.now }
    ensures { IsFirstFrom positions.now start result }
{
    match positions.binary_search(&start) {
        Ok(index) => index,
        Err(index) => index,
    }
}

/// Whether one of some ascending positions is at the start or behind it, and before the end. It costs the logarithm of how
/// many there are.
pub fn one_between(positions: &[usize], start: usize, end: usize) -> bool
    requires { AreAscending positions.now }
    ensures { IsTrue result ↔ OneBetween positions.now start end }
{
    let first = first_from(positions, start);
    if first >= positions.len() {
        return false;
    }
    positions[first] < end
}
