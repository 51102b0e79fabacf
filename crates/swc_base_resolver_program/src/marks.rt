//! The marks of the scopes.
ghost use Rattle.std.specs.Prelude.{◌≡◌, ◌≢◌, ℕ, ◌+◌, ◌-◌, ◌<◌, ◌≤◌, ◌↔◌, IsTrue, IfOk, IfErr, OnErr, IsErrOf};
ghost use Rattle.swc_tree_marks.specs.Globals.{greatest, with_fresh, with_fresh_marks};
ghost use Rattle.swc_base_resolver_program.specs.Marked.{IsMark, IsRefusal, MarksOk};
ghost use Rattle.swc_base_resolver_program.specs.Walks.{marks_from};

use std::alloc::Global;
use swc_tree_marks::{Globals, Mark, PassError};

/// Whether both marks stand in the table and neither is the root.
pub fn marks_ok(globals: &Globals, unresolved: Mark, top: Mark) -> bool
    ensures { IsTrue result ↔ MarksOk globals.now unresolved top }
{
    is_mark(globals, unresolved) && is_mark(globals, top)
}

/// The marks of so many scopes: the top mark, and after it fresh ones under it.
pub fn marks_of(
    alloc: Global,
    globals: &mut Globals,
    top: Mark,
    count: usize,
) -> Result<Vec<Mark>, PassError>
    ensures marks { IfOk result (λ marks. marks.items ≡ marks_from top (greatest globals.old + 1) count) }
    ensures table { IfOk result (λ _. globals.new ≡ with_fresh_marks globals.old top (count - 1)) }
    ensures gained { (fresh : ℕ) × (fresh ≤ count - 1) × (globals.new ≡ with_fresh_marks globals.old top fresh) }
    ensures refusal { IfErr result IsRefusal }
    ensures spent { IsErrOf result PassError.MarksSpent → 4294967295 < greatest globals.old + (count - 1) }
{
    let mut marks = Vec::new(alloc);
    if count == 0 {
        return Ok(marks);
    }
    marks.push(top)?;
    for made in 0..count - 1 {
        let mark = fresh(globals, top)?;
        marks.push(mark)?;
    }
    Ok(marks)
}

// A fresh mark under another.
fn fresh(globals: &mut Globals, parent: Mark) -> Result<Mark, PassError>
    ensures mark { IfOk result (λ mark. mark ≡ greatest globals.old + 1) }
    ensures table { IfOk result (λ _. globals.new ≡ with_fresh globals.old parent) }
    ensures unchanged { OnErr result (globals.new ≡ globals.old) }
    ensures refusal { IfErr result IsRefusal }
    ensures spent { IsErrOf result PassError.MarksSpent → 4294967295 ≤ greatest globals.old }
{
    match Mark::fresh(globals, parent) {
        Ok(mark) => Ok(mark),
        Err(error) => Err(PassError::from_fresh(error)),
    }
}

fn is_mark(globals: &Globals, mark: Mark) -> bool
    ensures { IsTrue result ↔ IsMark globals.now mark }
{
    mark != Mark::root() && globals.knows(mark)
}
