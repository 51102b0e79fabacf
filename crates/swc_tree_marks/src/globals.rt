//! The table of marks.
ghost use Rattle.std.specs.Prelude.{◌≡◌, ℕ, ◌+◌, ◌↔◌, [], ◌∷◌, ◌++◌, ◌<◌, length, Contains, IsTrue, IfOk, IfErr, OnOk, OnErr, IsErrOf, MatchOption, IsNone, IfSome};
ghost use Rattle.swc_tree_marks.specs.Errors.{IsFreshError};
ghost use Rattle.swc_tree_marks.specs.Globals.{numbers, greatest, Knows, Follows, IsTable, IsFirstBad, IsPlaceOf, RefusesTable, parent_in, recorded, IsDescendant};

use crate::error::MarkError;
use crate::mark::Mark;
use std::alloc::Global;
use std::marker::Model;

/// The table of marks: of each mark its number and its parent's, in rising order. Contracts see it as
/// the list of these pairs.
///
/// A look-up costs time in step with the logarithm of the length.
#[derive(Debug, Drop)]
pub struct Globals {
    table: Vec<(u32, u32)>,
}

impl Model for Globals {
    ghost use Rattle.swc_tree_marks.specs.Globals.{Table, IsTable};

    ghost Value = { Table };

    ghost view = { λ g. g.table.items };

    ghost invariant = { λ g. IsTable g.table.items };
}

impl Globals {
    /// The table of no mark.
    pub fn new(alloc: Global) -> Globals
        ensures { result ≡ [] }
    {
        Globals {
            table: Vec::new(alloc),
        }
    }

    /// The table of the given pairs.
    ///
    /// # Errors
    ///
    /// `BadTable` at the first pair whose number is 0 or not above all earlier ones, or whose parent is
    /// neither the root nor an earlier number; this is found before any memory is asked for. Else
    /// `NoMemory` where memory is refused.
    pub fn from_table(alloc: Global, table: &[(u32, u32)]) -> Result<Globals, MarkError>
        ensures pairs { IfOk result (λ globals. globals ≡ table.now) }
        ensures well_formed { OnOk result (IsTable table.now) }
        ensures refusal { IfErr result (RefusesTable table.now) }
        ensures bad { (i : ℕ) → IsFirstBad table.now i → IsErrOf result (MarkError.BadTable i) }
    {
        match first_bad(table) {
            Some(index) => Err(MarkError::BadTable(index)),
            None => {
                let table = Vec::from_slice(alloc, table)?;
                Ok(Globals { table })
            }
        }
    }

    /// Whether a mark is the root or stands in the table.
    pub fn knows(&self, mark: Mark) -> bool
        ensures { IsTrue result ↔ Knows self.now mark }
    {
        is_known(&self.table, mark.as_u32())
    }

    /// The pairs of a mark's number and its parent's, the oldest first.
    pub fn table(&self) -> &[(u32, u32)]
        ensures pairs { result.now ≡ self.now }
        ensures well_formed { IsTable self.now }
    {
        &self.table
    }
}

impl Mark {
    /// A mark that the table does not have: one more than its greatest number, or 1 in the empty table.
    /// It is added under its parent; a parent that the table does not know counts as the root. But for
    /// the look-up of the parent, this costs constant time, spread over many calls.
    ///
    /// # Errors
    ///
    /// `MarksSpent` where the table has the greatest number of all, and else `NoMemory` where memory is
    /// refused. The table then stays as it was.
    pub fn fresh(globals: &mut Globals, parent: Mark) -> Result<Mark, MarkError>
        ensures mark { IfOk result (λ mark. mark ≡ greatest globals.old + 1) }
        ensures table { IfOk result (λ mark. globals.new ≡ globals.old ++ (mark, recorded globals.old parent) ∷ []) }
        ensures spent { IsErrOf result MarkError.MarksSpent ↔ Contains (numbers globals.old) u32.MAX }
        ensures refusal { IfErr result IsFreshError }
        ensures unchanged { OnErr result (globals.new ≡ globals.old) }
    {
        let Some(number) = next_number(&globals.table) else {
            return Err(MarkError::MarksSpent);
        };
        let recorded = recorded_parent(&globals.table, parent.as_u32());
        globals.table.push((number, recorded))?;
        Ok(Mark::from_u32(number))
    }

    /// A fresh mark under the root.
    ///
    /// # Errors
    ///
    /// As `Mark::fresh`.
    pub fn new(globals: &mut Globals) -> Result<Mark, MarkError>
        ensures mark { IfOk result (λ mark. mark ≡ greatest globals.old + 1) }
        ensures table { IfOk result (λ mark. globals.new ≡ globals.old ++ (mark, 0) ∷ []) }
        ensures spent { IsErrOf result MarkError.MarksSpent ↔ Contains (numbers globals.old) u32.MAX }
        ensures refusal { IfErr result IsFreshError }
        ensures unchanged { OnErr result (globals.new ≡ globals.old) }
    {
        Mark::fresh(globals, Mark::root())
    }

    /// Whether `ancestor` is the mark itself or is met on the way through parents up to the root. The
    /// parent of a mark that the table does not know is the root.
    pub fn is_descendant_of(self, globals: &Globals, ancestor: Mark) -> bool
        ensures { IsTrue result ↔ IsDescendant globals.now self ancestor }
    {
        descends(&globals.table, self.as_u32(), ancestor.as_u32())
    }
}

// The index of the first pair that does not follow those before it.
fn first_bad(table: &[(u32, u32)]) -> Option<usize>
    ensures { MatchOption result (IsTable table.now) (IsFirstBad table.now) }
{
    for (i, row) in table.iter().enumerate() {
        if !follows(&table[..i], *row) {
            return Some(i);
        }
    }
    None
}

// Whether a pair may stand after those of a table.
fn follows(table: &[(u32, u32)], row: (u32, u32)) -> bool
    requires { IsTable table.now }
    ensures { IsTrue result ↔ Follows table.now row }
{
    greatest_number(table) < row.0 && is_known(table, row.1)
}

// The greatest number of a table, or 0.
fn greatest_number(table: &[(u32, u32)]) -> u32
    requires { IsTable table.now }
    ensures { result ≡ greatest table.now }
{
    match table.last() {
        Some(row) => row.0,
        None => 0,
    }
}

// One more than the greatest number of a table, unless that is spent.
fn next_number(table: &[(u32, u32)]) -> Option<u32>
    requires { IsTable table.now }
    ensures spent { IsNone result ↔ Contains (numbers table.now) u32.MAX }
    ensures next { IfSome result (λ number. number ≡ greatest table.now + 1) }
{
    greatest_number(table).checked_add(1)
}

// The parent of a fresh mark, as the table records it.
fn recorded_parent(table: &[(u32, u32)], parent: u32) -> u32
    requires { IsTable table.now }
    ensures { result ≡ recorded table.now parent }
{
    if is_known(table, parent) { parent } else { 0 }
}

// The number of a mark's parent.
fn parent_of(table: &[(u32, u32)], number: u32) -> u32
    requires { IsTable table.now }
    ensures { result ≡ parent_in table.now number }
{
    match place_of(table, number) {
        Some(place) => table[place].1,
        None => 0,
    }
}

// Whether the ancestor is met on the way from a mark up to the root.
fn descends(table: &[(u32, u32)], number: u32, ancestor: u32) -> bool
    requires { IsTable table.now }
    ensures { IsTrue result ↔ IsDescendant table.now number ancestor }
{
    let mut met = number;
    while met != ancestor {
        if met == 0 {
            return false;
        }
        met = parent_of(table, met);
    }
    true
}

// The place of a mark's number in a table.
fn place_of(table: &[(u32, u32)], number: u32) -> Option<usize>
    requires { IsTable table.now }
    ensures { MatchOption result (¬ Contains (numbers table.now) number) (IsPlaceOf table.now number) }
{
    table.binary_search_by_key(&number, |row| row.0).ok()
}

// Whether a number is that of the root or of a mark of the table.
fn is_known(table: &[(u32, u32)], number: u32) -> bool
    requires { IsTable table.now }
    ensures { IsTrue result ↔ Knows table.now number }
{
    number == 0 || place_of(table, number).is_some()
}
