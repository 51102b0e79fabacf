//! Texts some of whose names have marks, resolved.
ghost use Rattle.std.specs.Prelude.{None, MatchResult};
ghost use Rattle.mucwathi_given.specs.Given.{IsReady};
ghost use Rattle.mucwathi_given.specs.Refusals.{IsUnmade};
ghost use Rattle.mucwathi_looks.specs.Answered.{HasSignsOf, IsResolvedMarked};
ghost use Rattle.mucwathi_looks.specs.Refused.{IsUnresolvedMarked};

use crate::given::give_marked;
use crate::signs_at;
use mucwathi_given::{Envelope, make_given};
use mucwathi_order::{Goal, RunFault};
use mucwathi_signs::put_signs;
use std::alloc::Global;
use swc_tree_marks::PassError;
use swc_tree_walk::sites;

fn resolve(alloc: Global, text: &[u8], program: Envelope) -> Result<Vec<u8>, PassError>
    requires { IsReady program }
    ensures { MatchResult result (λ out. HasSignsOf program text.now out.items) (IsUnmade None program) }
{
    let made = make_given(alloc, None, program)?;
    let names = sites(alloc, &made.tree)?;
    let signs = signs_at(alloc, names.as_slice(), names.as_slice())?;
    let out = put_signs(alloc, text, signs.as_slice())?;
    Ok(out)
}

/// A text with the mark of its scope behind each name, but for those that have marks, which stay: of `let a; { a#4 }` it makes
/// `let a#2; { a#4 }`.
///
/// # Errors
///
/// `Text` where the text is not read; `Refused` where memory is refused, or marks are spent.
pub fn resolve_marked(
    alloc: Global,
    goal: Goal,
    depth: u32,
    text: &[u8],
) -> Result<Vec<u8>, RunFault>
    ensures { MatchResult result (λ out. IsResolvedMarked goal text.now out.items) (IsUnresolvedMarked goal text.now) }
{
    let marked = give_marked(alloc, goal, depth, text)?;
    let program = marked.program;
    match resolve(alloc, marked.text.as_slice(), program) {
        Ok(out) => Ok(out),
        Err(error) => Err(RunFault::Refused(error)),
    }
}
