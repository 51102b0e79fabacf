//! Short names for the program of an envelope.
ghost use Rattle.std.specs.Prelude.{◌≡◌, Some, false, MatchResult, string_bytes};
ghost use Rattle.swc_tree_scoping.specs.declared.places.Scope.TheVariants as scope;
ghost use Rattle.swc_tree_scoping.specs.Places.{opened, program_place};
ghost use Rattle.swc_tree_scoping.specs.Resolved.{is_script as is_script_node};
ghost use Rattle.swc_tree_spaces.specs.Spaces.{has_types as has_any_types};
ghost use Rattle.swc_base_resolver_program.specs.Marked.{MarksOk};
ghost use Rattle.jsbase_commands.specs.Run.{IsCausedFor, IsMadeShort, keeps_top_by};

use crate::arguments::Command;
use crate::commands::config;
use jsbase_reader::Envelope;
use jsbase_writer::write_envelope;
use std::alloc::Global;
use swc_base_fixer_program::fix_parens;
use swc_base_mangle::mangle_program;
use swc_base_resolver_program::resolve_program;
use swc_tree_comments::NoComments;
use swc_tree_marks::PassError;
use swc_tree_node::{Kind, Node};

fn is_script(program: &Node) -> bool
    ensures { result ≡ is_script_node program.now }
{
    matches!(program, Node::Tree(Kind::Script, _))
}

// Whether names of the program's scope are to stay: as it is said, and else in scripts.
fn keeps_top(said: Option<bool>, program: &Node) -> bool
    ensures { result ≡ keeps_top_by said program.now }
{
    match said {
        Some(keeps) => keeps,
        None => is_script(program),
    }
}

/// Resolves the program of an envelope, gives it short names and clears its contexts, and sets its parentheses anew.
///
/// # Errors
///
/// Those of the first of the three passes that is refused, and `NoMemory`.
#[inline(never)] // so that the other commands do not pay for its frame
pub(crate) fn mangle(alloc: Global, envelope: Envelope) -> Result<String, PassError>
    requires program { opened program_place envelope.tree ≡ Some scope.Program }
    requires marks { MarksOk envelope.globals envelope.unresolved envelope.top }
    requires types { has_any_types envelope.tree ≡ false }
    ensures { MatchResult result (λ text. IsMadeShort envelope (string_bytes text)) (IsCausedFor Command.Mangle envelope) }
{
    let Envelope {
        mut globals,
        unresolved,
        top,
        keep_class_names,
        ignore_eval,
        keep_top,
        tree,
    } = envelope;
    let keeps = keeps_top(keep_top, &tree);
    let config = config(top, keep_class_names, ignore_eval);
    let marked = resolve_program(alloc, &mut globals, unresolved, top, tree)?;
    let mangled = mangle_program(alloc, &config, &globals, keeps, marked)?;
    let fixed = fix_parens(alloc, None::<&mut NoComments>, mangled)?;
    let text = write_envelope(alloc, &globals, top, &fixed, unresolved)?;
    Ok(text)
}
