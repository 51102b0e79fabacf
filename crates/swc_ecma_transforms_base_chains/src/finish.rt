//! Hygiene, and then the fixer.
ghost use Rattle.std.specs.Prelude.{◌≡◌, ◌≢◌, OnOk, OnErr, IfErr};
ghost use Rattle.swc_tree.specs.Passes.{IsEmptied, IsEmptiedScript};
ghost use Rattle.swc_tree_marks.specs.declared.error.PassError.TheVariants as error;
ghost use Rattle.swc_tree_modules.specs.Nodes.{module_node, script_node};
ghost use Rattle.swc_tree_scoping.specs.WellScoped.{WellScoped};
ghost use Rattle.swc_tree_renaming.specs.Apart.{IsPlainScript};
ghost use Rattle.swc_base_rename_units.specs.Eval.{HasEval};
ghost use Rattle.swc_base_rename_program.specs.Renamed.{IsHygienic};
ghost use Rattle.swc_base_renaming_laws.specs.Hygiene.{IsFinishable};
ghost use Rattle.swc_ecma_transforms_base_chains.specs.Finished.{Finishes, IsFinishRefusal};
ghost use Rattle.swc_ecma_transforms_base_laws.specs.Headline.{IsOfMemoryOrCounters, KeepsItsForm, KeepsItsPromises};
ghost use Rattle.swc_ecma_transforms_base_laws.specs.Settled.{IsAnswer};
ghost use Rattle.swc_ecma_transforms_base_chains.specs.Lent.{Became, MovesFor, MovesPartly};

use crate::fixed::{fix_module, fix_script};
use std::alloc::Global;
use std::mem;
use swc_base_rename::{Config, hygiene_with_config};
use swc_ecma_transforms_base_laws::{
    finishing_keeps_forms, finishing_keeps_promises, finishing_meets_no_target,
};
use swc_tree::{
    Comments, Globals, JsPass, Module, NoComments, PassError, Script, empty_module, empty_script,
    module_fits, script_fits,
};

/// Makes texts alone tell the names of a program apart, and then sets its parentheses anew, as a printer needs it. Comments
/// move along with the pairs that are not set again.
///
/// A module that can be written down, in which nothing reads names and where classes don't keep theirs, becomes one that the
/// grammar derives, with the normal form that it had but for the names that it binds; no target of it is to blame then. Where it
/// is well-scoped, the answer is the same program, but for names, as each source without contexts that it could be resolved from, in
/// which no `var` declares a catch parameter's name again (`ComesFrom`, `AlphaEquivalent`); it gives two kept names one id exactly if
/// the module did, however it is resolved; by itself it gives them one text and one scope, or one text and no scope, exactly then; and
/// it has no early error of names. If in addition no direct
/// `eval` and no `with` stands in it, not even an ignored one, `chain_module` answers the answer again, spans too (`IsAnswer`).
///
/// # Errors
///
/// `TypesLeft` exactly where declarations of types stand in the program. Else those of the first of the two passes that is refused:
/// `CounterSpent` where no counter below the greatest `usize` gives an id
/// a free text, `NotAssignable` where a parenthesised target takes no value, `NoMemory`. The program is then empty, with its
/// span and no `#!` line, and no comment has moved, but a beginning of the moves may have been made where the error is
/// `NoMemory`.
pub fn finish_module<C: Comments>(
    alloc: Global,
    globals: &mut Globals,
    config: Config,
    comments: Option<&mut C>,
    program: &mut Module,
) -> Result<(), PassError>
    ensures done { OnOk result (Finishes globals.old config (module_node program.old) (module_node program.new)) }
    ensures promises { IsFinishable config (module_node program.old) → OnOk result (KeepsItsPromises (module_node program.old) (module_node program.new)) }
    ensures answer { IsFinishable config (module_node program.old) → ¬ HasEval (module_node program.old) → WellScoped (module_node program.old) → OnOk result (IsAnswer (module_node program.new)) }
    ensures refused { OnErr result (IsEmptied program.old program.new) }
    ensures cause { IfErr result (IsFinishRefusal globals.old config (module_node program.old)) }
    ensures no_target { IsFinishable config (module_node program.old) → IfErr result IsOfMemoryOrCounters }
    ensures marks { globals.new ≡ globals.old }
    ensures moved { OnOk result (Became (MovesFor C.moved (IsHygienic globals.old config (module_node program.old)) (module_node program.new)) comments.entry comments.exit) }
    ensures partly { OnErr result (Became (MovesPartly C.moved (IsHygienic globals.old config (module_node program.old))) comments.entry comments.exit) }
    ensures unmoved { IfErr result (λ e. e ≢ error.NoMemory → Became (λ c d. d ≡ c) comments.entry comments.exit) }
{
    match comments {
        None => finish_module_with(alloc, globals, config, &mut NoComments, program),
        Some(comments) => finish_module_with(alloc, globals, config, comments, program),
    }
}

/// The same for a program of the goal Script.
///
/// A script that can be written down, in which nothing reads names and where classes don't keep theirs, becomes one that the grammar
/// derives, with the normal form that it had but for the names that it binds; no target of it is to blame then. What `finish_module`
/// promises of names is promised of it if in addition (`IsPlainScript`) no plain function stands in a block, catch body or case list
/// of sloppy code, no label names a function, its program declares neither `undefined` nor `NaN` nor `Infinity`, and no function has
/// two parameters of one id; and `chain_script` answers the answer again where `chain_module` does (`IsAnswer`).
///
/// # Errors
///
/// Those of `finish_module`.
pub fn finish_script<C: Comments>(
    alloc: Global,
    globals: &mut Globals,
    config: Config,
    comments: Option<&mut C>,
    program: &mut Script,
) -> Result<(), PassError>
    ensures done { OnOk result (Finishes globals.old config (script_node program.old) (script_node program.new)) }
    ensures form { IsFinishable config (script_node program.old) → OnOk result (KeepsItsForm (script_node program.old) (script_node program.new)) }
    ensures promises { IsFinishable config (script_node program.old) → IsPlainScript (script_node program.old) → OnOk result (KeepsItsPromises (script_node program.old) (script_node program.new)) }
    ensures answer { IsFinishable config (script_node program.old) → IsPlainScript (script_node program.old) → ¬ HasEval (script_node program.old) → WellScoped (script_node program.old) → OnOk result (IsAnswer (script_node program.new)) }
    ensures refused { OnErr result (IsEmptiedScript program.old program.new) }
    ensures cause { IfErr result (IsFinishRefusal globals.old config (script_node program.old)) }
    ensures no_target { IsFinishable config (script_node program.old) → IfErr result IsOfMemoryOrCounters }
    ensures marks { globals.new ≡ globals.old }
    ensures moved { OnOk result (Became (MovesFor C.moved (IsHygienic globals.old config (script_node program.old)) (script_node program.new)) comments.entry comments.exit) }
    ensures partly { OnErr result (Became (MovesPartly C.moved (IsHygienic globals.old config (script_node program.old))) comments.entry comments.exit) }
    ensures unmoved { IfErr result (λ e. e ≢ error.NoMemory → Became (λ c d. d ≡ c) comments.entry comments.exit) }
{
    match comments {
        None => finish_script_with(alloc, globals, config, &mut NoComments, program),
        Some(comments) => finish_script_with(alloc, globals, config, comments, program),
    }
}

// `finish_module` with comments.
pub(crate) fn finish_module_with<C: Comments>(
    alloc: Global,
    globals: &mut Globals,
    config: Config,
    comments: &mut C,
    program: &mut Module,
) -> Result<(), PassError>
    ensures done { OnOk result (Finishes globals.old config (module_node program.old) (module_node program.new)) }
    ensures promises { IsFinishable config (module_node program.old) → OnOk result (KeepsItsPromises (module_node program.old) (module_node program.new)) }
    ensures answer { IsFinishable config (module_node program.old) → ¬ HasEval (module_node program.old) → WellScoped (module_node program.old) → OnOk result (IsAnswer (module_node program.new)) }
    ensures refused { OnErr result (IsEmptied program.old program.new) }
    ensures cause { IfErr result (IsFinishRefusal globals.old config (module_node program.old)) }
    ensures no_target { IsFinishable config (module_node program.old) → IfErr result IsOfMemoryOrCounters }
    ensures marks { globals.new ≡ globals.old }
    ensures moved { OnOk result (MovesFor C.moved (IsHygienic globals.old config (module_node program.old)) (module_node program.new) comments.old comments.new) }
    ensures partly { OnErr result (MovesPartly C.moved (IsHygienic globals.old config (module_node program.old)) comments.old comments.new) }
    ensures unmoved { IfErr result (λ e. e ≢ error.NoMemory → comments.new ≡ comments.old) }
{
    finishing_keeps_promises();
    finishing_meets_no_target();
    module_fits(program);
    let mut module = mem::replace(program, empty_module(alloc, program.span));
    let mut hygiene = hygiene_with_config(config);
    hygiene.visit_mut_module(alloc, globals, &mut module)?;
    fix_module(alloc, comments, &mut module)?;
    *program = module;
    Ok(())
}

// `finish_script` with comments.
pub(crate) fn finish_script_with<C: Comments>(
    alloc: Global,
    globals: &mut Globals,
    config: Config,
    comments: &mut C,
    program: &mut Script,
) -> Result<(), PassError>
    ensures done { OnOk result (Finishes globals.old config (script_node program.old) (script_node program.new)) }
    ensures form { IsFinishable config (script_node program.old) → OnOk result (KeepsItsForm (script_node program.old) (script_node program.new)) }
    ensures promises { IsFinishable config (script_node program.old) → IsPlainScript (script_node program.old) → OnOk result (KeepsItsPromises (script_node program.old) (script_node program.new)) }
    ensures answer { IsFinishable config (script_node program.old) → IsPlainScript (script_node program.old) → ¬ HasEval (script_node program.old) → WellScoped (script_node program.old) → OnOk result (IsAnswer (script_node program.new)) }
    ensures refused { OnErr result (IsEmptiedScript program.old program.new) }
    ensures cause { IfErr result (IsFinishRefusal globals.old config (script_node program.old)) }
    ensures no_target { IsFinishable config (script_node program.old) → IfErr result IsOfMemoryOrCounters }
    ensures marks { globals.new ≡ globals.old }
    ensures moved { OnOk result (MovesFor C.moved (IsHygienic globals.old config (script_node program.old)) (script_node program.new) comments.old comments.new) }
    ensures partly { OnErr result (MovesPartly C.moved (IsHygienic globals.old config (script_node program.old)) comments.old comments.new) }
    ensures unmoved { IfErr result (λ e. e ≢ error.NoMemory → comments.new ≡ comments.old) }
{
    finishing_keeps_forms();
    finishing_keeps_promises();
    finishing_meets_no_target();
    script_fits(program);
    let mut script = mem::replace(program, empty_script(alloc, program.span));
    let mut hygiene = hygiene_with_config(config);
    hygiene.visit_mut_script(alloc, globals, &mut script)?;
    fix_script(alloc, comments, &mut script)?;
    *program = script;
    Ok(())
}
