//! Texts with the marks of their scopes.
ghost use Rattle.std.specs.Prelude.{◌≡◌, Some, MatchResult};
ghost use Rattle.swc_tree_scoping.specs.declared.places.Scope.TheVariants as scope;
ghost use Rattle.swc_tree_scoping.specs.Places.{opened, program_place};
ghost use Rattle.text_source.specs.Texts.{IsTextOf, SpansAreOf};
ghost use Rattle.mucwathi_looks.specs.Looks.{IsLookRefusal, IsUnlooked};
ghost use Rattle.mucwathi_looks.specs.Marked.{HasOwnSigns, HasSigns};

use crate::signs::signs_at;
use mucwathi_commands::mucwathi_order::Goal;
use mucwathi_order::RunFault;
use mucwathi_passes::{own_marks, resolve};
use mucwathi_signs::put_signs;
use std::alloc::Global;
use swc_tree_marks::PassError;
use swc_tree_node::Node;
use swc_tree_walk::sites;
use text_source::read_text;

fn mark(alloc: Global, text: &[u8], source: Node) -> Result<Vec<u8>, PassError>
    requires { opened program_place source ≡ Some scope.Program }
    ensures { MatchResult result (λ out. HasOwnSigns source text.now out.items) (IsLookRefusal source) }
{
    let mut globals = own_marks(alloc)?;
    let resolved = resolve(alloc, &mut globals, source)?;
    let names = sites(alloc, &resolved)?;
    let signs = signs_at(alloc, names.as_slice(), names.as_slice())?;
    let out = put_signs(alloc, text, signs.as_slice())?;
    Ok(out)
}

// A text that was read, with its marks.
fn mark_source(alloc: Global, goal: Goal, text: &[u8], source: Node) -> Result<Vec<u8>, RunFault>
    requires read { IsTextOf goal source text.now }
    requires stands { SpansAreOf goal source text.now }
    ensures { MatchResult result (λ out. HasSigns goal text.now out.items) (IsUnlooked goal text.now) }
{
    match mark(alloc, text, source) {
        Ok(out) => Ok(out),
        Err(error) => Err(RunFault::Refused(error)),
    }
}

/// A text with the mark of its scope behind each name: `let a#2;`, those that the resolver gives to its program. Without them it is the text.
///
/// # Errors
///
/// `Text` where the text is not read; `Refused` where memory is refused, or marks are spent.
pub fn mark_text(alloc: Global, goal: Goal, depth: u32, text: &[u8]) -> Result<Vec<u8>, RunFault>
    ensures { MatchResult result (λ out. HasSigns goal text.now out.items) (IsUnlooked goal text.now) }
{
    match read_text(alloc, goal, depth, text) {
        Ok(source) => mark_source(alloc, goal, text, source),
        Err(fault) => Err(RunFault::of_text(fault)),
    }
}
