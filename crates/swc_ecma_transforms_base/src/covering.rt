//! Whether what `chain_module` and `chain_script` promise is promised of a program: `covers` of `swc_base_covers` on `Module` and
//! `Script`, by the words of those promises.

ghost use Rattle.std.specs.Prelude.{◌≡◌, None, IfOk, IfErr};
ghost use Rattle.swc_tree_marks.specs.declared.error.PassError.TheVariants as error;
ghost use Rattle.swc_tree_node.specs.declared.kind.Class.TheVariants as class;
ghost use Rattle.swc_tree_node.specs.declared.slot.Slot.TheVariants.{One};
ghost use Rattle.swc_tree_node.specs.declared.slot.Content.TheVariants.{Node as Of};
ghost use Rattle.swc_tree_node.specs.Fits.{Fits};
ghost use Rattle.swc_tree_modules.specs.Nodes.{module_node, script_node};
ghost use Rattle.swc_tree_renaming.specs.Apart.{IsPlainScript};
ghost use Rattle.swc_base_covers.specs.Covered.{HasPath, Tells};
ghost use Rattle.swc_ecma_transforms_base_laws.specs.Sources.{IsSource};

use std::alloc::{AllocError, Global};
use swc_base_covers::{Gap, covers};
use swc_base_rename_substitution::Config;
use swc_tree::{Module, Node, Opened, PassError, Script};

// A copy of a module, as a node.
fn module_copy(alloc: Global, program: &Module) -> Result<Node, AllocError>
    ensures value { IfOk result (λ copy. copy ≡ module_node program.now) }
    ensures fits { IfOk result (λ copy. Fits copy (One (Of class.Module))) }
{
    program.clone()?.into_node(alloc)
}

// A copy of a script, as a node.
fn script_copy(alloc: Global, program: &Script) -> Result<Node, AllocError>
    ensures value { IfOk result (λ copy. copy ≡ script_node program.now) }
    ensures fits { IfOk result (λ copy. Fits copy (One (Of class.Script))) }
{
    program.clone()?.into_node(alloc)
}

/// What keeps a module from what `chain_module` promises of it under a configuration; none if it promises it.
///
/// Of several causes the first is told, in the order of `Cause`. The module is copied.
///
/// # Errors
///
/// `NoMemory` alone.
pub fn covers_module(
    alloc: Global,
    config: &Config,
    program: &Module,
) -> Result<Option<Gap>, PassError>
    ensures told { IfOk result (Tells config.now (module_node program.now)) }
    ensures source { IfOk result (λ gap. gap ≡ None → IsSource config.now (module_node program.now)) }
    ensures path { IfOk result (HasPath (module_node program.now)) }
    ensures refusal { IfErr result (λ e. e ≡ error.NoMemory) }
{
    let node = module_copy(alloc, program)?;
    let gap = covers(alloc, config, &node)?;
    Ok(gap)
}

/// What keeps a script from what `chain_script` promises of it under a configuration; none if it promises it. Of a source that is not
/// plain that call still promises its form.
///
/// # Errors
///
/// Those of `covers_module`.
pub fn covers_script(
    alloc: Global,
    config: &Config,
    program: &Script,
) -> Result<Option<Gap>, PassError>
    ensures told { IfOk result (Tells config.now (script_node program.now)) }
    ensures source { IfOk result (λ gap. gap ≡ None → IsSource config.now (script_node program.now) × IsPlainScript (script_node program.now)) }
    ensures path { IfOk result (HasPath (script_node program.now)) }
    ensures refusal { IfErr result (λ e. e ≡ error.NoMemory) }
{
    let node = script_copy(alloc, program)?;
    let gap = covers(alloc, config, &node)?;
    Ok(gap)
}
