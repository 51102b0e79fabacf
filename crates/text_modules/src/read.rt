//! Texts read as modules and scripts.
ghost use Rattle.std.specs.Prelude.{◌≡◌, ◌<◌, ◌≤◌, length, Err, IfErr, IfOk, IsUtf8};
ghost use Rattle.std.specs.Str.Lossy.{utf8_valid_len};
ghost use Rattle.swc_tree_modules.specs.Nodes.{module_node, script_node};
ghost use Rattle.swc_tree_scoping.specs.WellScoped.{IsClean};
ghost use Rattle.text_checks.specs.Checked.{IsWellFormed};
ghost use Rattle.text_parser.specs.declared.programs.Goal.TheVariants as goal;
ghost use Rattle.text_checks.specs.Pinned.{IsPinned};
ghost use Rattle.text_reader.specs.declared.fault.TextFault.TheVariants as fault;
ghost use Rattle.text_source.specs.Texts.{IsTextOf, SpansAreOf, Tells, most_bytes, slot_of};
ghost use Rattle.text_spans.specs.Leaves.{LeavesStand};

use std::alloc::Global;
use swc_tree::{Module, Opened, Script};
use text_source::{Goal, TextFault, read_text};

/// The module that a text is. `depth` says how deep it may be: see `read_text` of crate text_source, which reads it.
///
/// # Errors
///
/// Those of `read_text`.
pub fn read_module(alloc: Global, depth: u32, text: &[u8]) -> Result<Module, TextFault>
    ensures tree { IfOk result (λ read. IsTextOf goal.Module (module_node read) text.now) }
    ensures formed { IfOk result (λ read. IsWellFormed (slot_of goal.Module) (module_node read)) }
    ensures pinned { IfOk result (λ read. IsPinned (module_node read)) }
    ensures leaves { IfOk result (λ read. LeavesStand text.now (module_node read)) }
    ensures clean { IfOk result (λ read. IsClean (module_node read)) }
    ensures spans { IfOk result (λ read. SpansAreOf goal.Module (module_node read) text.now) }
    ensures refusal { IfErr result (Tells text.now) }
    ensures too_long { most_bytes < length text.now → result ≡ Err fault.TooLong }
    ensures no_utf8 { length text.now ≤ most_bytes → (IsUtf8 text.now → ⊥) → result ≡ Err (fault.NotUtf8 (utf8_valid_len text.now)) }
{
    match read_text(alloc, Goal::Module, depth, text) {
        Ok(tree) => Ok(Module::from_node(tree)),
        Err(fault) => Err(fault),
    }
}

/// The script that a text is. `depth` says how deep it may be: see `read_text` of crate text_source, which reads it.
///
/// # Errors
///
/// Those of `read_text`.
pub fn read_script(alloc: Global, depth: u32, text: &[u8]) -> Result<Script, TextFault>
    ensures tree { IfOk result (λ read. IsTextOf goal.Script (script_node read) text.now) }
    ensures formed { IfOk result (λ read. IsWellFormed (slot_of goal.Script) (script_node read)) }
    ensures pinned { IfOk result (λ read. IsPinned (script_node read)) }
    ensures leaves { IfOk result (λ read. LeavesStand text.now (script_node read)) }
    ensures clean { IfOk result (λ read. IsClean (script_node read)) }
    ensures spans { IfOk result (λ read. SpansAreOf goal.Script (script_node read) text.now) }
    ensures refusal { IfErr result (Tells text.now) }
    ensures too_long { most_bytes < length text.now → result ≡ Err fault.TooLong }
    ensures no_utf8 { length text.now ≤ most_bytes → (IsUtf8 text.now → ⊥) → result ≡ Err (fault.NotUtf8 (utf8_valid_len text.now)) }
{
    match read_text(alloc, Goal::Script, depth, text) {
        Ok(tree) => Ok(Script::from_node(tree)),
        Err(fault) => Err(fault),
    }
}
