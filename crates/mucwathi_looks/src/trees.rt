//! Texts as JSON.
ghost use Rattle.std.specs.Prelude.{◌≡◌, Some, MatchResult, string_bytes};
ghost use Rattle.swc_tree_scoping.specs.declared.places.Scope.TheVariants as scope;
ghost use Rattle.swc_tree_scoping.specs.Places.{opened, program_place};
ghost use Rattle.text_source.specs.Texts.{IsTextOf};
ghost use Rattle.mucwathi_looks.specs.Looks.{IsLookRefusal, IsUnlooked};
ghost use Rattle.mucwathi_looks.specs.Trees.{HasEnvelope, HasTree};

use jsbase_writer::write_envelope;
use mucwathi_commands::mucwathi_order::Goal;
use mucwathi_order::RunFault;
use mucwathi_passes::{own_marks, resolve, top, unresolved};
use std::alloc::Global;
use swc_tree_marks::PassError;
use swc_tree_node::Node;
use text_source::read_text;

fn envelope_of(alloc: Global, source: Node) -> Result<String, PassError>
    requires { opened program_place source ≡ Some scope.Program }
    ensures { MatchResult result (λ out. HasEnvelope source (string_bytes out)) (IsLookRefusal source) }
{
    let mut globals = own_marks(alloc)?;
    let resolved = resolve(alloc, &mut globals, source)?;
    let out = write_envelope(alloc, &globals, top(), &resolved, unresolved())?;
    Ok(out)
}

// The envelope of a program that was read.
fn tree_in(alloc: Global, goal: Goal, text: &[u8], source: Node) -> Result<String, RunFault>
    requires { IsTextOf goal source text.now }
    ensures { MatchResult result (λ out. HasTree goal text.now (string_bytes out)) (IsUnlooked goal text.now) }
{
    match envelope_of(alloc, source) {
        Ok(out) => Ok(out),
        Err(error) => Err(RunFault::Refused(error)),
    }
}

/// The tree of a text as the envelope that `jsbase` reads, each of its names with the mark of its scope.
///
/// # Errors
///
/// `Text` where the text is not read; `Refused` where memory is refused, or marks are spent.
pub fn tree_of_text(alloc: Global, goal: Goal, depth: u32, text: &[u8]) -> Result<String, RunFault>
    ensures { MatchResult result (λ out. HasTree goal text.now (string_bytes out)) (IsUnlooked goal text.now) }
{
    match read_text(alloc, goal, depth, text) {
        Ok(source) => tree_in(alloc, goal, text, source),
        Err(fault) => Err(RunFault::of_text(fault)),
    }
}
