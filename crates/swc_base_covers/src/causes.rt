//! The first that is asked of a program and does not hold.
ghost use Rattle.std.specs.Prelude.{◌≡◌, ◌↔◌, IsTrue, IfOk, Some};
ghost use Rattle.swc_tree_node.specs.declared.slot.Slot.{Slot};
ghost use Rattle.swc_tree_node.specs.Fits.{Fits};
ghost use Rattle.swc_tree_scoping.specs.declared.places.Scope.TheVariants as scope;
ghost use Rattle.swc_tree_scoping.specs.Places.{opened, program_place};
ghost use Rattle.swc_tree_scoping.specs.WellScoped.{IsClean};
ghost use Rattle.swc_tree_renaming.specs.Apart.{IsPlainIfScript, is_goal};
ghost use Rattle.swc_base_covers.specs.Shown.{has_marks};
ghost use Rattle.swc_base_covers.specs.Causes.{Decides, DecidesNames, name_cause as of_names, script_cause as of_scripts, tree_causes};
ghost use Rattle.swc_base_covers.specs.Covered.{Asks, IsRead, causes};

use crate::gap::Cause;
use std::alloc::{AllocError, Global};
use swc_base_early_errors::{NameError, ScriptFault, error_of_names, unplain_part};
use swc_base_rename_substitution::Config;
use swc_base_rename_units::has_eval;
use swc_base_writable::is_writable;
use swc_tree_has_types::has_types;
use swc_tree_marks::Mark;
use swc_tree_node::Node;
use swc_tree_walk::{Finder, has_node};

// Looks for an identifier that has a context.
struct Marked;

impl Finder for Marked {
    ghost use Rattle.swc_base_covers.specs.Causes.{has_context};

    ghost is_sought = { λ _ node. has_context node };

    fn is_sought(&self, node: &Node) -> bool {
        match node {
            Node::Identifier(_, ident) => has_any(ident.get().ctxt.marks()),
            _ => false,
        }
    }
}

/// Whether there are any.
pub(crate) fn has_any(marks: &[Mark]) -> bool
    ensures { result ≡ has_marks marks.now }
{
    match marks {
        [] => false,
        [_first, _rest @ ..] => true,
    }
}

// Whether something reads names, and it counts.
fn is_read(config: &Config, program: &Node) -> bool
    ensures { IsTrue result ↔ IsRead config.now program.now }
{
    !config.ignore_eval && has_eval(program)
}

// The cause that an early error of names is.
fn cause_of_names(error: NameError) -> Cause
    ensures { result ≡ of_names error }
{
    match error {
        NameError::Export => Cause::Export,
        NameError::Twice => Cause::Twice,
        NameError::Variable => Cause::Variable,
        NameError::Parameter => Cause::Parameter,
        NameError::EvalOrArguments => Cause::Eval,
    }
}

// The cause that a script's own fault is.
fn cause_of_scripts(fault: ScriptFault) -> Cause
    ensures { result ≡ of_scripts fault }
{
    match fault {
        ScriptFault::SloppyFunction => Cause::Function,
        ScriptFault::Label => Cause::Label,
        ScriptFault::GlobalValue => Cause::Global,
        ScriptFault::RepeatedParameter => Cause::Repeated,
    }
}

// The first of what is asked of the tree itself.
fn tree_cause(config: &Config, program: &Node) -> Option<Cause>
    ensures { (place : Slot) → Fits program.now place → Decides (Asks config.now program.now) tree_causes result }
{
    if has_types(program) {
        return Some(Cause::Types);
    }
    if has_node(&Marked, program) {
        return Some(Cause::Context);
    }
    if !is_writable(program) {
        return Some(Cause::Written);
    }
    if config.keep_class_names {
        return Some(Cause::Classes);
    }
    if is_read(config, program) {
        return Some(Cause::Reads);
    }
    None
}

// The first of what is asked of the names of a program that is plain if it is a script.
fn error_cause(alloc: Global, program: &Node) -> Result<Option<Cause>, AllocError>
    ensures { opened program_place program.now ≡ Some scope.Program → IsClean program.now → IsPlainIfScript program.now → IfOk result (DecidesNames program.now) }
{
    let found = error_of_names(alloc, program)?;
    match found {
        Some(error) => Ok(Some(cause_of_names(error))),
        None => Ok(None),
    }
}

// The first of what is asked of its names.
fn name_cause(alloc: Global, program: &Node) -> Result<Option<Cause>, AllocError>
    ensures { opened program_place program.now ≡ Some scope.Program → IsClean program.now → IfOk result (DecidesNames program.now) }
{
    let found = unplain_part(alloc, program)?;
    match found {
        Some(fault) => Ok(Some(cause_of_scripts(fault))),
        None => error_cause(alloc, program),
    }
}

/// The first that is asked of a program and does not hold.
///
/// # Errors
///
/// Where memory was refused.
pub fn first_cause(
    alloc: Global,
    config: &Config,
    program: &Node,
) -> Result<Option<Cause>, AllocError>
    ensures { (goal : Slot) → IsTrue (is_goal goal) → Fits program.now goal → IfOk result (Decides (Asks config.now program.now) causes) }
{
    match tree_cause(config, program) {
        Some(cause) => Ok(Some(cause)),
        None => name_cause(alloc, program),
    }
}
