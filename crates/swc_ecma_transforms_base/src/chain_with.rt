//! The resolver, a renamer of one's own, and the fixer.
ghost use Rattle.std.specs.Prelude.{◌≡◌, ◌≢◌, true, false, OnOk, OnErr, IfErr};
ghost use Rattle.swc_tree_marks.specs.declared.error.PassError.TheVariants as error;
ghost use Rattle.swc_tree.specs.Passes.{IsEmptied, IsEmptiedScript};
ghost use Rattle.swc_tree_modules.specs.Nodes.{module_node, script_node};
ghost use Rattle.swc_tree_renaming.specs.Apart.{IsPlainScript};
ghost use Rattle.swc_tree_spaces.specs.Spaces.{has_types};
ghost use Rattle.swc_base_rename.specs.Renamers.{renaming_in};
ghost use Rattle.swc_base_resolver_program.specs.Marked.{MarksOk};
ghost use Rattle.swc_ecma_transforms_base_chains.specs.Lower.swc_ecma_transforms_base_laws.specs.Sources.{IsSource};
ghost use Rattle.swc_ecma_transforms_base_chains.specs.Chained.{ChainsBy, HasFreshMarks, IsAskedOfResolved, IsChainRefusalBy, IsOnceRenamed, SuitsOnceResolved};
ghost use Rattle.swc_ecma_transforms_base_chains.specs.Lower.swc_ecma_transforms_base_laws.specs.Headline.{KeepsItsForm, KeepsItsSource};
ghost use Rattle.swc_ecma_transforms_base_chains.specs.Lent.{Became, MovesFor, MovesPartly};

use crate::finish_with::{finish_typeless_module_by, finish_typeless_script_by};
use std::alloc::Global;
use std::mem;
use swc_base_rename::{Config, Renamer};
use swc_base_resolver::resolver;
use swc_ecma_transforms_base_chains::swc_ecma_transforms_base_laws::{
    lawful_renamers_keep_forms_of_sources, lawful_renamers_keep_sources,
};
use swc_tree::{
    Comments, Globals, JsPass, Mark, Module, NoComments, PassError, Script, empty_module,
    empty_script, module_fits, script_fits, types_in_module, types_in_script,
};
use swc_tree_spaces_laws::types_are_told;

/// Resolves a program, gives its names anew, as a renamer has them, and then sets its parentheses anew. Comments move along with the pairs
/// that are not set again. The renamer is asked once, for the ids of the resolved program that keep their texts. Neither mark may be the root;
/// which scope each name means is promised where `marks_ok` holds of them.
///
/// A module of which `chain_module` promises something becomes the same module but for the names that it binds (`AlphaEquivalent`), as
/// that call has it, if the renamer suits what it is resolved to (`Suits`). One that preserves no id does, and so does one that preserves
/// none but ids with the mark of the program alone, which are those that the program declares
/// (`renamers_that_preserve_top_names_suit`).
///
/// # Errors
///
/// `TypesLeft` exactly where declarations of types stand in the program; the table is then as it was. Else those of the first of the
/// three passes that is refused, as `chain_module` has them. The program is then empty, with its span and no `#!` line; the table may have
/// gained marks, and the renamer may have been asked; and no comment has moved, but a beginning of the moves may have been made where the
/// error is `NoMemory`.
pub fn chain_with_module<R: Renamer, C: Comments>(
    alloc: Global,
    globals: &mut Globals,
    unresolved: Mark,
    top: Mark,
    config: Config,
    renamer: &mut R,
    comments: Option<&mut C>,
    program: &mut Module,
) -> Result<(), PassError>
    requires unresolved { unresolved ≢ 0 }
    requires top { top ≢ 0 }
    ensures done { OnOk result (ChainsBy (renaming_in R.text R.preserved R.asked R.MANGLE R.RESET_N renamer.old renamer.new) unresolved top config globals.old (module_node program.old) globals.new (module_node program.new)) }
    ensures refused { OnErr result (IsEmptied program.old program.new) }
    ensures cause { IfErr result (IsChainRefusalBy (renaming_in R.text R.preserved R.asked R.MANGLE R.RESET_N renamer.old renamer.new) unresolved top config globals.old (module_node program.old) globals.new) }
    ensures marks { HasFreshMarks top globals.old (module_node program.old) globals.new }
    ensures promises { SuitsOnceResolved (renaming_in R.text R.preserved R.asked R.MANGLE R.RESET_N renamer.old renamer.new) unresolved top globals.old (module_node program.old) globals.new → IsSource config (module_node program.old) → MarksOk globals.old unresolved top → OnOk result (KeepsItsSource unresolved top globals.old globals.new (module_node program.old) (module_node program.new)) }
    ensures no_target { IsSource config (module_node program.old) → MarksOk globals.old unresolved top → IfErr result (λ e. e ≢ error.NotAssignable) }
    ensures asked { OnOk result (IsAskedOfResolved R.asked unresolved top globals.old (module_node program.old) globals.new renamer.old renamer.new) }
    ensures unasked { has_types (module_node program.old) ≡ true → renamer.new ≡ renamer.old }
    ensures moved { OnOk result (Became (MovesFor C.moved (IsOnceRenamed (renaming_in R.text R.preserved R.asked R.MANGLE R.RESET_N renamer.old renamer.new) unresolved top config globals.old (module_node program.old) globals.new) (module_node program.new)) comments.entry comments.exit) }
    ensures partly { OnErr result (Became (MovesPartly C.moved (IsOnceRenamed (renaming_in R.text R.preserved R.asked R.MANGLE R.RESET_N renamer.old renamer.new) unresolved top config globals.old (module_node program.old) globals.new)) comments.entry comments.exit) }
    ensures unmoved { IfErr result (λ e. e ≢ error.NoMemory → Became (λ c d. d ≡ c) comments.entry comments.exit) }
{
    match comments {
        None => chain_module_by(
            alloc,
            globals,
            unresolved,
            top,
            config,
            renamer,
            &mut NoComments,
            program,
        ),
        Some(comments) => chain_module_by(
            alloc, globals, unresolved, top, config, renamer, comments, program,
        ),
    }
}

/// The same for a program of the goal Script.
///
/// A script of which `chain_script` promises something becomes the same script but for the names that it binds, as that call has it, if the
/// renamer suits what it is resolved to: besides, it gives no id the text `undefined`, `NaN` or `Infinity` that had another.
///
/// # Errors
///
/// Those of `chain_with_module`.
pub fn chain_with_script<R: Renamer, C: Comments>(
    alloc: Global,
    globals: &mut Globals,
    unresolved: Mark,
    top: Mark,
    config: Config,
    renamer: &mut R,
    comments: Option<&mut C>,
    program: &mut Script,
) -> Result<(), PassError>
    requires unresolved { unresolved ≢ 0 }
    requires top { top ≢ 0 }
    ensures done { OnOk result (ChainsBy (renaming_in R.text R.preserved R.asked R.MANGLE R.RESET_N renamer.old renamer.new) unresolved top config globals.old (script_node program.old) globals.new (script_node program.new)) }
    ensures refused { OnErr result (IsEmptiedScript program.old program.new) }
    ensures cause { IfErr result (IsChainRefusalBy (renaming_in R.text R.preserved R.asked R.MANGLE R.RESET_N renamer.old renamer.new) unresolved top config globals.old (script_node program.old) globals.new) }
    ensures marks { HasFreshMarks top globals.old (script_node program.old) globals.new }
    ensures form { IsSource config (script_node program.old) → MarksOk globals.old unresolved top → OnOk result (KeepsItsForm (script_node program.old) (script_node program.new)) }
    ensures promises { SuitsOnceResolved (renaming_in R.text R.preserved R.asked R.MANGLE R.RESET_N renamer.old renamer.new) unresolved top globals.old (script_node program.old) globals.new → IsSource config (script_node program.old) → IsPlainScript (script_node program.old) → MarksOk globals.old unresolved top → OnOk result (KeepsItsSource unresolved top globals.old globals.new (script_node program.old) (script_node program.new)) }
    ensures no_target { IsSource config (script_node program.old) → MarksOk globals.old unresolved top → IfErr result (λ e. e ≢ error.NotAssignable) }
    ensures asked { OnOk result (IsAskedOfResolved R.asked unresolved top globals.old (script_node program.old) globals.new renamer.old renamer.new) }
    ensures unasked { has_types (script_node program.old) ≡ true → renamer.new ≡ renamer.old }
    ensures moved { OnOk result (Became (MovesFor C.moved (IsOnceRenamed (renaming_in R.text R.preserved R.asked R.MANGLE R.RESET_N renamer.old renamer.new) unresolved top config globals.old (script_node program.old) globals.new) (script_node program.new)) comments.entry comments.exit) }
    ensures partly { OnErr result (Became (MovesPartly C.moved (IsOnceRenamed (renaming_in R.text R.preserved R.asked R.MANGLE R.RESET_N renamer.old renamer.new) unresolved top config globals.old (script_node program.old) globals.new)) comments.entry comments.exit) }
    ensures unmoved { IfErr result (λ e. e ≢ error.NoMemory → Became (λ c d. d ≡ c) comments.entry comments.exit) }
{
    match comments {
        None => chain_script_by(
            alloc,
            globals,
            unresolved,
            top,
            config,
            renamer,
            &mut NoComments,
            program,
        ),
        Some(comments) => chain_script_by(
            alloc, globals, unresolved, top, config, renamer, comments, program,
        ),
    }
}

// `chain_with_module` with comments.
fn chain_module_by<R: Renamer, C: Comments>(
    alloc: Global,
    globals: &mut Globals,
    unresolved: Mark,
    top: Mark,
    config: Config,
    renamer: &mut R,
    comments: &mut C,
    program: &mut Module,
) -> Result<(), PassError>
    requires unresolved { unresolved ≢ 0 }
    requires top { top ≢ 0 }
    ensures done { OnOk result (ChainsBy (renaming_in R.text R.preserved R.asked R.MANGLE R.RESET_N renamer.old renamer.new) unresolved top config globals.old (module_node program.old) globals.new (module_node program.new)) }
    ensures refused { OnErr result (IsEmptied program.old program.new) }
    ensures cause { IfErr result (IsChainRefusalBy (renaming_in R.text R.preserved R.asked R.MANGLE R.RESET_N renamer.old renamer.new) unresolved top config globals.old (module_node program.old) globals.new) }
    ensures marks { HasFreshMarks top globals.old (module_node program.old) globals.new }
    ensures promises { SuitsOnceResolved (renaming_in R.text R.preserved R.asked R.MANGLE R.RESET_N renamer.old renamer.new) unresolved top globals.old (module_node program.old) globals.new → IsSource config (module_node program.old) → MarksOk globals.old unresolved top → OnOk result (KeepsItsSource unresolved top globals.old globals.new (module_node program.old) (module_node program.new)) }
    ensures no_target { IsSource config (module_node program.old) → MarksOk globals.old unresolved top → IfErr result (λ e. e ≢ error.NotAssignable) }
    ensures asked { OnOk result (IsAskedOfResolved R.asked unresolved top globals.old (module_node program.old) globals.new renamer.old renamer.new) }
    ensures unasked { has_types (module_node program.old) ≡ true → renamer.new ≡ renamer.old }
    ensures moved { OnOk result (MovesFor C.moved (IsOnceRenamed (renaming_in R.text R.preserved R.asked R.MANGLE R.RESET_N renamer.old renamer.new) unresolved top config globals.old (module_node program.old) globals.new) (module_node program.new) comments.old comments.new) }
    ensures partly { OnErr result (MovesPartly C.moved (IsOnceRenamed (renaming_in R.text R.preserved R.asked R.MANGLE R.RESET_N renamer.old renamer.new) unresolved top config globals.old (module_node program.old) globals.new) comments.old comments.new) }
    ensures unmoved { IfErr result (λ e. e ≢ error.NoMemory → comments.new ≡ comments.old) }
{
    if types_in_module(program) {
        *program = empty_module(alloc, program.span);
        return Err(PassError::TypesLeft);
    }
    types_are_told();
    lawful_renamers_keep_forms_of_sources();
    lawful_renamers_keep_sources();
    module_fits(program);
    let mut module = mem::replace(program, empty_module(alloc, program.span));
    let mut resolver = resolver(unresolved, top);
    resolver.visit_mut_module(alloc, globals, &mut module)?;
    finish_typeless_module_by(alloc, globals, config, renamer, comments, &mut module)?;
    *program = module;
    Ok(())
}

// `chain_with_script` with comments.
fn chain_script_by<R: Renamer, C: Comments>(
    alloc: Global,
    globals: &mut Globals,
    unresolved: Mark,
    top: Mark,
    config: Config,
    renamer: &mut R,
    comments: &mut C,
    program: &mut Script,
) -> Result<(), PassError>
    requires unresolved { unresolved ≢ 0 }
    requires top { top ≢ 0 }
    ensures done { OnOk result (ChainsBy (renaming_in R.text R.preserved R.asked R.MANGLE R.RESET_N renamer.old renamer.new) unresolved top config globals.old (script_node program.old) globals.new (script_node program.new)) }
    ensures refused { OnErr result (IsEmptiedScript program.old program.new) }
    ensures cause { IfErr result (IsChainRefusalBy (renaming_in R.text R.preserved R.asked R.MANGLE R.RESET_N renamer.old renamer.new) unresolved top config globals.old (script_node program.old) globals.new) }
    ensures marks { HasFreshMarks top globals.old (script_node program.old) globals.new }
    ensures form { IsSource config (script_node program.old) → MarksOk globals.old unresolved top → OnOk result (KeepsItsForm (script_node program.old) (script_node program.new)) }
    ensures promises { SuitsOnceResolved (renaming_in R.text R.preserved R.asked R.MANGLE R.RESET_N renamer.old renamer.new) unresolved top globals.old (script_node program.old) globals.new → IsSource config (script_node program.old) → IsPlainScript (script_node program.old) → MarksOk globals.old unresolved top → OnOk result (KeepsItsSource unresolved top globals.old globals.new (script_node program.old) (script_node program.new)) }
    ensures no_target { IsSource config (script_node program.old) → MarksOk globals.old unresolved top → IfErr result (λ e. e ≢ error.NotAssignable) }
    ensures asked { OnOk result (IsAskedOfResolved R.asked unresolved top globals.old (script_node program.old) globals.new renamer.old renamer.new) }
    ensures unasked { has_types (script_node program.old) ≡ true → renamer.new ≡ renamer.old }
    ensures moved { OnOk result (MovesFor C.moved (IsOnceRenamed (renaming_in R.text R.preserved R.asked R.MANGLE R.RESET_N renamer.old renamer.new) unresolved top config globals.old (script_node program.old) globals.new) (script_node program.new) comments.old comments.new) }
    ensures partly { OnErr result (MovesPartly C.moved (IsOnceRenamed (renaming_in R.text R.preserved R.asked R.MANGLE R.RESET_N renamer.old renamer.new) unresolved top config globals.old (script_node program.old) globals.new) comments.old comments.new) }
    ensures unmoved { IfErr result (λ e. e ≢ error.NoMemory → comments.new ≡ comments.old) }
{
    if types_in_script(program) {
        *program = empty_script(alloc, program.span);
        return Err(PassError::TypesLeft);
    }
    types_are_told();
    lawful_renamers_keep_forms_of_sources();
    lawful_renamers_keep_sources();
    script_fits(program);
    let mut script = mem::replace(program, empty_script(alloc, program.span));
    let mut resolver = resolver(unresolved, top);
    resolver.visit_mut_script(alloc, globals, &mut script)?;
    finish_typeless_script_by(alloc, globals, config, renamer, comments, &mut script)?;
    *program = script;
    Ok(())
}
