//! The tables of the marks of signs.
ghost use Rattle.std.specs.Prelude.{◌≡◌, ◌↔◌, ◌++◌, ℕ, Contains, IfOk, OnOk};
ghost use Rattle.std.specs.List.{All, flat_map};
ghost use Rattle.std.specs.List.Sorted.{IsPermutation};
ghost use Rattle.swc_tree_marks.specs.Globals.{numbers};
ghost use Rattle.mucwathi_looks.specs.Given.{HasMarks, marks_of};

use mucwathi_passes::{top, unresolved};
use mucwathi_signs::Sign;
use std::alloc::{AllocError, Global};
use swc_tree_marks::Globals;

fn add_marks(signs: &[Sign], marks: &mut Vec<u32>) -> Result<(), AllocError>
    ensures { OnOk result (marks.new.items ≡ marks.old.items ++ flat_map (λ s. s.marks.items) signs.now) }
{
    'signs: for i in 0..signs.len() {
        marks.extend_from_slice(signs[i].marks.as_slice())?;
    }
    Ok(())
}

// The marks of signs, and the two that a text is resolved with, in order.
fn ordered_marks(alloc: Global, signs: &[Sign]) -> Result<Vec<u32>, AllocError>
    ensures { IfOk result (λ marks. IsPermutation (marks_of signs.now) marks.items) }
{
    let mut marks = Vec::new(alloc);
    marks.push(unresolved().as_u32())?;
    marks.push(top().as_u32())?;
    add_marks(signs, &mut marks)?;
    marks.sort()?;
    Ok(marks)
}

// Each of some marks once, if they are in order, with the root above it.
fn rows_of(alloc: Global, marks: &[u32]) -> Result<Vec<(u32, u32)>, AllocError>
    ensures below_root { IfOk result (λ rows. All (λ row. row.1 ≡ 0) rows.items) }
    ensures marks { IfOk result (λ rows. (m : ℕ) → Contains (numbers rows.items) m ↔ Contains marks.now m) }
{
    let mut rows = Vec::new(alloc);
    'marks: for i in 0..marks.len() {
        if i > 0 && marks[i - 1] == marks[i] {
            continue;
        }
        rows.push((marks[i], 0))?;
    }
    Ok(rows)
}

/// The table of the marks of signs, and of the two that a text is resolved with, each below the root.
pub(crate) fn table_of(alloc: Global, signs: &[Sign]) -> Result<Globals, AllocError>
    ensures { IfOk result (HasMarks (marks_of signs.now)) }
{
    let marks = ordered_marks(alloc, signs)?;
    let rows = rows_of(alloc, marks.as_slice())?;
    match Globals::from_table(alloc, rows.as_slice()) {
        Ok(globals) => Ok(globals),
        // Marks that are in order rise, so memory was refused.
        Err(_) => Err(AllocError),
    }
}
