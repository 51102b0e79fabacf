//! Finishing a program, and chaining what came of it.
ghost use Rattle.std.specs.Prelude.{◌≡◌, ◌≢◌, IfOk};
ghost use Rattle.swc_tree_modules.specs.Nodes.{module_node, script_node};
ghost use Rattle.swc_tree_scoping.specs.WellScoped.{WellScoped};
ghost use Rattle.swc_tree_renaming.specs.Apart.{IsPlainScript};
ghost use Rattle.swc_base_resolver_program.specs.Marked.{MarksOk};
ghost use Rattle.swc_base_rename_units.specs.Eval.{HasEval};
ghost use Rattle.swc_base_renaming_laws.specs.Hygiene.{IsFinishable};

use std::alloc::Global;
use swc_base_rename_substitution::Config;
use swc_ecma_transforms_base::{
    Globals, Mark, Module, NoComments, PassError, Script, chain_module, chain_script,
    finish_module, finish_script,
};

/// Finishes a module, and gives back what a chain makes of a copy of the answer. Of a well-scoped module that can be finished and in
/// which nothing reads names, that is the answer again, spans too.
///
/// # Errors
///
/// Those of the first of the two calls that is refused, and `NoMemory` where the copy is.
pub fn finish_and_chain(
    alloc: Global,
    globals: &mut Globals,
    unresolved: Mark,
    top: Mark,
    config: &Config,
    program: &mut Module,
) -> Result<Module, PassError>
    requires unresolved { unresolved ≢ 0 }
    requires top { top ≢ 0 }
    ensures again { IsFinishable config.now (module_node program.old) → ¬ HasEval (module_node program.old) → WellScoped (module_node program.old) → MarksOk globals.old unresolved top → IfOk result (λ chained. module_node chained ≡ module_node program.new) }
{
    finish_module(alloc, globals, *config, None::<&mut NoComments>, program)?;
    let mut chained = program.clone()?;
    chain_module(
        alloc,
        globals,
        unresolved,
        top,
        *config,
        None::<&mut NoComments>,
        &mut chained,
    )?;
    Ok(chained)
}

/// Finishes a script, and gives back what a chain makes of a copy of the answer. Of a well-scoped plain script that can be finished and
/// in which nothing reads names, that is the answer again, spans too.
///
/// # Errors
///
/// Those of `finish_and_chain`.
pub fn finish_and_chain_script(
    alloc: Global,
    globals: &mut Globals,
    unresolved: Mark,
    top: Mark,
    config: &Config,
    program: &mut Script,
) -> Result<Script, PassError>
    requires unresolved { unresolved ≢ 0 }
    requires top { top ≢ 0 }
    ensures again { IsFinishable config.now (script_node program.old) → IsPlainScript (script_node program.old) → ¬ HasEval (script_node program.old) → WellScoped (script_node program.old) → MarksOk globals.old unresolved top → IfOk result (λ chained. script_node chained ≡ script_node program.new) }
{
    finish_script(alloc, globals, *config, None::<&mut NoComments>, program)?;
    let mut chained = program.clone()?;
    chain_script(
        alloc,
        globals,
        unresolved,
        top,
        *config,
        None::<&mut NoComments>,
        &mut chained,
    )?;
    Ok(chained)
}
