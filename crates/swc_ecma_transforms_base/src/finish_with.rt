//! A renamer of one's own, and then the fixer.
ghost use Rattle.std.specs.Prelude.{◌≡◌, ◌≢◌, true, false, OnOk, OnErr, IfErr};
ghost use Rattle.swc_tree.specs.Passes.{IsEmptied, IsEmptiedScript};
ghost use Rattle.swc_tree_marks.specs.declared.error.PassError.TheVariants as error;
ghost use Rattle.swc_tree_modules.specs.Nodes.{module_node, script_node};
ghost use Rattle.swc_tree_renaming.specs.Apart.{IsPlainScript};
ghost use Rattle.swc_tree_spaces.specs.Spaces.{has_types};
ghost use Rattle.swc_base_rename.specs.Renamers.{renaming_in};
ghost use Rattle.swc_base_renaming_laws.specs.Hygiene.{IsFinishable};
ghost use Rattle.swc_base_renaming_laws.specs.Renamers.{IsLawful, IsRenamedAndCleared};
ghost use Rattle.swc_ecma_transforms_base_chains.specs.Finished.{FinishesBy, IsFinishRefusalBy};
ghost use Rattle.swc_ecma_transforms_base_chains.specs.Lent.{Became, MovesFor, MovesPartly};
ghost use Rattle.swc_ecma_transforms_base_chains.specs.Lower.swc_ecma_transforms_base_laws.specs.Headline.{IsOfMemoryOrCounters, KeepsItsForm, KeepsItsPromises};
ghost use Rattle.swc_ecma_transforms_base_chains.specs.Lower.swc_ecma_transforms_base_laws.specs.Renamers.{Suits};

use std::alloc::Global;
use std::mem;
use swc_base_rename::{Config, Renamer, settle_module_with, settle_script_with};
use swc_ecma_transforms_base_chains::swc_ecma_transforms_base_laws::{
    finishing_renamed_meets_no_target, lawful_renamers_keep_forms, lawful_renamers_keep_promises,
};
use swc_ecma_transforms_base_chains::{fix_module, fix_script};
use swc_tree::{
    Comments, Globals, Module, NoComments, PassError, Script, empty_module, empty_script,
    module_fits, script_fits, types_in_module, types_in_script,
};

/// Gives the names of a program anew, as a renamer has them, so that texts alone tell them apart, and then sets its parentheses anew, as a
/// printer needs it. Comments move along with the pairs that are not set again. The renamer is asked once, first, for the ids that keep
/// their texts; the answer goes by what that call made of it.
///
/// What `finish_module` promises is promised of a module that can be written down, in which nothing reads names and where classes don't
/// keep theirs, if the renamer suits it (`Suits`): of the ids that it preserves no two that can be seen from one scope have one text, nor
/// has one the text of a free name that can be seen where it is declared. One that preserves no id suits each module. No target of such
/// a module is to blame, whatever the renamer preserves.
///
/// # Errors
///
/// `TypesLeft` exactly where declarations of types stand in the program; the renamer is then not asked. Else `CounterSpent` where no
/// counter from its start and below the greatest `usize` gives an id a free text, `NotAssignable` where a parenthesised target takes no
/// value, `NoMemory`. The program is then empty, with its span and no `#!` line, and no comment has moved, but a beginning of the moves
/// may have been made where the error is `NoMemory`.
pub fn finish_with_module<R: Renamer, C: Comments>(
    alloc: Global,
    globals: &Globals,
    config: Config,
    renamer: &mut R,
    comments: Option<&mut C>,
    program: &mut Module,
) -> Result<(), PassError>
    ensures done { OnOk result (FinishesBy (renaming_in R.text R.preserved R.asked R.MANGLE R.RESET_N renamer.old renamer.new (module_node program.old)) globals.now config (module_node program.old) (module_node program.new)) }
    ensures promises { Suits (renaming_in R.text R.preserved R.asked R.MANGLE R.RESET_N renamer.old renamer.new (module_node program.old)) (module_node program.old) → IsFinishable config (module_node program.old) → OnOk result (KeepsItsPromises (module_node program.old) (module_node program.new)) }
    ensures refused { OnErr result (IsEmptied program.old program.new) }
    ensures cause { IfErr result (IsFinishRefusalBy (renaming_in R.text R.preserved R.asked R.MANGLE R.RESET_N renamer.old renamer.new (module_node program.old)) globals.now config (module_node program.old)) }
    ensures no_target { IsFinishable config (module_node program.old) → IfErr result IsOfMemoryOrCounters }
    ensures asked { has_types (module_node program.old) ≡ false → R.asked renamer.old (module_node program.old) renamer.new }
    ensures unasked { has_types (module_node program.old) ≡ true → renamer.new ≡ renamer.old }
    ensures moved { OnOk result (Became (MovesFor C.moved (IsRenamedAndCleared globals.now config (renaming_in R.text R.preserved R.asked R.MANGLE R.RESET_N renamer.old renamer.new (module_node program.old)) (module_node program.old)) (module_node program.new)) comments.entry comments.exit) }
    ensures partly { OnErr result (Became (MovesPartly C.moved (IsRenamedAndCleared globals.now config (renaming_in R.text R.preserved R.asked R.MANGLE R.RESET_N renamer.old renamer.new (module_node program.old)) (module_node program.old))) comments.entry comments.exit) }
    ensures unmoved { IfErr result (λ e. e ≢ error.NoMemory → Became (λ c d. d ≡ c) comments.entry comments.exit) }
{
    match comments {
        None => finish_module_by(alloc, globals, config, renamer, &mut NoComments, program),
        Some(comments) => finish_module_by(alloc, globals, config, renamer, comments, program),
    }
}

/// The same for a program of the goal Script.
///
/// What `finish_script` promises is promised if the renamer suits the script: besides, it gives no id the text `undefined`, `NaN` or
/// `Infinity` that had another. Its form stays, whatever the renamer preserves.
///
/// # Errors
///
/// Those of `finish_with_module`.
pub fn finish_with_script<R: Renamer, C: Comments>(
    alloc: Global,
    globals: &Globals,
    config: Config,
    renamer: &mut R,
    comments: Option<&mut C>,
    program: &mut Script,
) -> Result<(), PassError>
    ensures done { OnOk result (FinishesBy (renaming_in R.text R.preserved R.asked R.MANGLE R.RESET_N renamer.old renamer.new (script_node program.old)) globals.now config (script_node program.old) (script_node program.new)) }
    ensures form { IsFinishable config (script_node program.old) → OnOk result (KeepsItsForm (script_node program.old) (script_node program.new)) }
    ensures promises { Suits (renaming_in R.text R.preserved R.asked R.MANGLE R.RESET_N renamer.old renamer.new (script_node program.old)) (script_node program.old) → IsFinishable config (script_node program.old) → IsPlainScript (script_node program.old) → OnOk result (KeepsItsPromises (script_node program.old) (script_node program.new)) }
    ensures refused { OnErr result (IsEmptiedScript program.old program.new) }
    ensures cause { IfErr result (IsFinishRefusalBy (renaming_in R.text R.preserved R.asked R.MANGLE R.RESET_N renamer.old renamer.new (script_node program.old)) globals.now config (script_node program.old)) }
    ensures no_target { IsFinishable config (script_node program.old) → IfErr result IsOfMemoryOrCounters }
    ensures asked { has_types (script_node program.old) ≡ false → R.asked renamer.old (script_node program.old) renamer.new }
    ensures unasked { has_types (script_node program.old) ≡ true → renamer.new ≡ renamer.old }
    ensures moved { OnOk result (Became (MovesFor C.moved (IsRenamedAndCleared globals.now config (renaming_in R.text R.preserved R.asked R.MANGLE R.RESET_N renamer.old renamer.new (script_node program.old)) (script_node program.old)) (script_node program.new)) comments.entry comments.exit) }
    ensures partly { OnErr result (Became (MovesPartly C.moved (IsRenamedAndCleared globals.now config (renaming_in R.text R.preserved R.asked R.MANGLE R.RESET_N renamer.old renamer.new (script_node program.old)) (script_node program.old))) comments.entry comments.exit) }
    ensures unmoved { IfErr result (λ e. e ≢ error.NoMemory → Became (λ c d. d ≡ c) comments.entry comments.exit) }
{
    match comments {
        None => finish_script_by(alloc, globals, config, renamer, &mut NoComments, program),
        Some(comments) => finish_script_by(alloc, globals, config, renamer, comments, program),
    }
}

// `finish_with_module` with comments.
fn finish_module_by<R: Renamer, C: Comments>(
    alloc: Global,
    globals: &Globals,
    config: Config,
    renamer: &mut R,
    comments: &mut C,
    program: &mut Module,
) -> Result<(), PassError>
    ensures done { OnOk result (FinishesBy (renaming_in R.text R.preserved R.asked R.MANGLE R.RESET_N renamer.old renamer.new (module_node program.old)) globals.now config (module_node program.old) (module_node program.new)) }
    ensures promises { Suits (renaming_in R.text R.preserved R.asked R.MANGLE R.RESET_N renamer.old renamer.new (module_node program.old)) (module_node program.old) → IsFinishable config (module_node program.old) → OnOk result (KeepsItsPromises (module_node program.old) (module_node program.new)) }
    ensures refused { OnErr result (IsEmptied program.old program.new) }
    ensures cause { IfErr result (IsFinishRefusalBy (renaming_in R.text R.preserved R.asked R.MANGLE R.RESET_N renamer.old renamer.new (module_node program.old)) globals.now config (module_node program.old)) }
    ensures no_target { IsFinishable config (module_node program.old) → IfErr result IsOfMemoryOrCounters }
    ensures asked { has_types (module_node program.old) ≡ false → R.asked renamer.old (module_node program.old) renamer.new }
    ensures unasked { has_types (module_node program.old) ≡ true → renamer.new ≡ renamer.old }
    ensures moved { OnOk result (MovesFor C.moved (IsRenamedAndCleared globals.now config (renaming_in R.text R.preserved R.asked R.MANGLE R.RESET_N renamer.old renamer.new (module_node program.old)) (module_node program.old)) (module_node program.new) comments.old comments.new) }
    ensures partly { OnErr result (MovesPartly C.moved (IsRenamedAndCleared globals.now config (renaming_in R.text R.preserved R.asked R.MANGLE R.RESET_N renamer.old renamer.new (module_node program.old)) (module_node program.old)) comments.old comments.new) }
    ensures unmoved { IfErr result (λ e. e ≢ error.NoMemory → comments.new ≡ comments.old) }
{
    module_fits(program);
    if types_in_module(program) {
        *program = empty_module(alloc, program.span);
        return Err(PassError::TypesLeft);
    }
    finish_typeless_module_by(alloc, globals, config, renamer, comments, program)
}

// The same of a program in which no types stand.
pub(crate) fn finish_typeless_module_by<R: Renamer, C: Comments>(
    alloc: Global,
    globals: &Globals,
    config: Config,
    renamer: &mut R,
    comments: &mut C,
    program: &mut Module,
) -> Result<(), PassError>
    requires no_types { has_types (module_node program.old) ≡ false }
    ensures done { OnOk result (FinishesBy (renaming_in R.text R.preserved R.asked R.MANGLE R.RESET_N renamer.old renamer.new (module_node program.old)) globals.now config (module_node program.old) (module_node program.new)) }
    ensures promises { Suits (renaming_in R.text R.preserved R.asked R.MANGLE R.RESET_N renamer.old renamer.new (module_node program.old)) (module_node program.old) → IsFinishable config (module_node program.old) → OnOk result (KeepsItsPromises (module_node program.old) (module_node program.new)) }
    ensures refused { OnErr result (IsEmptied program.old program.new) }
    ensures cause { IfErr result (IsFinishRefusalBy (renaming_in R.text R.preserved R.asked R.MANGLE R.RESET_N renamer.old renamer.new (module_node program.old)) globals.now config (module_node program.old)) }
    ensures no_target { IsFinishable config (module_node program.old) → IfErr result IsOfMemoryOrCounters }
    ensures asked { R.asked renamer.old (module_node program.old) renamer.new }
    ensures lawful { IsLawful (renaming_in R.text R.preserved R.asked R.MANGLE R.RESET_N renamer.old renamer.new (module_node program.old)) }
    ensures moved { OnOk result (MovesFor C.moved (IsRenamedAndCleared globals.now config (renaming_in R.text R.preserved R.asked R.MANGLE R.RESET_N renamer.old renamer.new (module_node program.old)) (module_node program.old)) (module_node program.new) comments.old comments.new) }
    ensures partly { OnErr result (MovesPartly C.moved (IsRenamedAndCleared globals.now config (renaming_in R.text R.preserved R.asked R.MANGLE R.RESET_N renamer.old renamer.new (module_node program.old)) (module_node program.old)) comments.old comments.new) }
    ensures unmoved { IfErr result (λ e. e ≢ error.NoMemory → comments.new ≡ comments.old) }
{
    lawful_renamers_keep_promises();
    finishing_renamed_meets_no_target();
    module_fits(program);
    let mut module = mem::replace(program, empty_module(alloc, program.span));
    settle_module_with(alloc, globals, &config, renamer, &mut module)?;
    fix_module(alloc, comments, &mut module)?;
    *program = module;
    Ok(())
}

// `finish_with_script` with comments.
fn finish_script_by<R: Renamer, C: Comments>(
    alloc: Global,
    globals: &Globals,
    config: Config,
    renamer: &mut R,
    comments: &mut C,
    program: &mut Script,
) -> Result<(), PassError>
    ensures done { OnOk result (FinishesBy (renaming_in R.text R.preserved R.asked R.MANGLE R.RESET_N renamer.old renamer.new (script_node program.old)) globals.now config (script_node program.old) (script_node program.new)) }
    ensures form { IsFinishable config (script_node program.old) → OnOk result (KeepsItsForm (script_node program.old) (script_node program.new)) }
    ensures promises { Suits (renaming_in R.text R.preserved R.asked R.MANGLE R.RESET_N renamer.old renamer.new (script_node program.old)) (script_node program.old) → IsFinishable config (script_node program.old) → IsPlainScript (script_node program.old) → OnOk result (KeepsItsPromises (script_node program.old) (script_node program.new)) }
    ensures refused { OnErr result (IsEmptiedScript program.old program.new) }
    ensures cause { IfErr result (IsFinishRefusalBy (renaming_in R.text R.preserved R.asked R.MANGLE R.RESET_N renamer.old renamer.new (script_node program.old)) globals.now config (script_node program.old)) }
    ensures no_target { IsFinishable config (script_node program.old) → IfErr result IsOfMemoryOrCounters }
    ensures asked { has_types (script_node program.old) ≡ false → R.asked renamer.old (script_node program.old) renamer.new }
    ensures unasked { has_types (script_node program.old) ≡ true → renamer.new ≡ renamer.old }
    ensures moved { OnOk result (MovesFor C.moved (IsRenamedAndCleared globals.now config (renaming_in R.text R.preserved R.asked R.MANGLE R.RESET_N renamer.old renamer.new (script_node program.old)) (script_node program.old)) (script_node program.new) comments.old comments.new) }
    ensures partly { OnErr result (MovesPartly C.moved (IsRenamedAndCleared globals.now config (renaming_in R.text R.preserved R.asked R.MANGLE R.RESET_N renamer.old renamer.new (script_node program.old)) (script_node program.old)) comments.old comments.new) }
    ensures unmoved { IfErr result (λ e. e ≢ error.NoMemory → comments.new ≡ comments.old) }
{
    script_fits(program);
    if types_in_script(program) {
        *program = empty_script(alloc, program.span);
        return Err(PassError::TypesLeft);
    }
    finish_typeless_script_by(alloc, globals, config, renamer, comments, program)
}

// The same of a program in which no types stand.
pub(crate) fn finish_typeless_script_by<R: Renamer, C: Comments>(
    alloc: Global,
    globals: &Globals,
    config: Config,
    renamer: &mut R,
    comments: &mut C,
    program: &mut Script,
) -> Result<(), PassError>
    requires no_types { has_types (script_node program.old) ≡ false }
    ensures done { OnOk result (FinishesBy (renaming_in R.text R.preserved R.asked R.MANGLE R.RESET_N renamer.old renamer.new (script_node program.old)) globals.now config (script_node program.old) (script_node program.new)) }
    ensures form { IsFinishable config (script_node program.old) → OnOk result (KeepsItsForm (script_node program.old) (script_node program.new)) }
    ensures promises { Suits (renaming_in R.text R.preserved R.asked R.MANGLE R.RESET_N renamer.old renamer.new (script_node program.old)) (script_node program.old) → IsFinishable config (script_node program.old) → IsPlainScript (script_node program.old) → OnOk result (KeepsItsPromises (script_node program.old) (script_node program.new)) }
    ensures refused { OnErr result (IsEmptiedScript program.old program.new) }
    ensures cause { IfErr result (IsFinishRefusalBy (renaming_in R.text R.preserved R.asked R.MANGLE R.RESET_N renamer.old renamer.new (script_node program.old)) globals.now config (script_node program.old)) }
    ensures no_target { IsFinishable config (script_node program.old) → IfErr result IsOfMemoryOrCounters }
    ensures asked { R.asked renamer.old (script_node program.old) renamer.new }
    ensures lawful { IsLawful (renaming_in R.text R.preserved R.asked R.MANGLE R.RESET_N renamer.old renamer.new (script_node program.old)) }
    ensures moved { OnOk result (MovesFor C.moved (IsRenamedAndCleared globals.now config (renaming_in R.text R.preserved R.asked R.MANGLE R.RESET_N renamer.old renamer.new (script_node program.old)) (script_node program.old)) (script_node program.new) comments.old comments.new) }
    ensures partly { OnErr result (MovesPartly C.moved (IsRenamedAndCleared globals.now config (renaming_in R.text R.preserved R.asked R.MANGLE R.RESET_N renamer.old renamer.new (script_node program.old)) (script_node program.old)) comments.old comments.new) }
    ensures unmoved { IfErr result (λ e. e ≢ error.NoMemory → comments.new ≡ comments.old) }
{
    lawful_renamers_keep_forms();
    lawful_renamers_keep_promises();
    finishing_renamed_meets_no_target();
    script_fits(program);
    let mut script = mem::replace(program, empty_script(alloc, program.span));
    settle_script_with(alloc, globals, &config, renamer, &mut script)?;
    fix_script(alloc, comments, &mut script)?;
    *program = script;
    Ok(())
}
