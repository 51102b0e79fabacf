//! The resolver, hygiene and the fixer.
ghost use Rattle.std.specs.Prelude.{◌≡◌, ◌≢◌, false, OnOk, OnErr, IfErr};
ghost use Rattle.swc_tree_marks.specs.declared.error.PassError.TheVariants as error;
ghost use Rattle.swc_tree.specs.Passes.{IsEmptied, IsEmptiedScript};
ghost use Rattle.swc_tree_modules.specs.Nodes.{module_node, script_node};
ghost use Rattle.swc_tree_renaming.specs.Apart.{IsPlainScript};
ghost use Rattle.swc_base_resolver_program.specs.Marked.{MarksOk};
ghost use Rattle.swc_base_rename_units.specs.Eval.{HasEval};
ghost use Rattle.swc_ecma_transforms_base_laws.specs.Sources.{IsSource};
ghost use Rattle.swc_ecma_transforms_base_chains.specs.Chained.{Chains, HasFreshMarks, IsChainRefusal, IsOnceHygienic};
ghost use Rattle.swc_ecma_transforms_base_laws.specs.Headline.{KeepsItsForm, KeepsItsSource};
ghost use Rattle.swc_ecma_transforms_base_laws.specs.Settled.{IsAnswer};
ghost use Rattle.swc_ecma_transforms_base_chains.specs.Lent.{Became, MovesFor, MovesPartly};

use crate::finish::{finish_module_with, finish_script_with};
use std::alloc::Global;
use std::mem;
use swc_base_rename::Config;
use swc_base_resolver::resolver;
use swc_ecma_transforms_base_laws::{
    a_chain_changes_nothing, chaining_keeps_forms, chaining_keeps_sources,
    resolved_sources_are_ready,
};
use swc_tree::{
    Comments, Globals, JsPass, Mark, Module, NoComments, PassError, Script, empty_module,
    empty_script, module_fits, script_fits, types_in_module, types_in_script,
};
use swc_tree_spaces_laws::types_are_told;

/// Resolves a program, makes texts alone tell its names apart, and then sets its parentheses anew. Comments move along with the
/// pairs that are not set again. Neither mark may be the root; which scope each name means is promised where `marks_ok` holds of them.
///
/// A module without contexts and early errors of names that can be written down, in which nothing reads names and where classes don't
/// keep theirs, becomes the same module but for the names that it binds (`AlphaEquivalent`): of one shape, with free names, labels and
/// keys as they were, and two names for one thing exactly if they were. The grammar derives it. Two names
/// of the source have one text and one scope, or one text and no scope, exactly if the resolver gave them one id; two kept names of the
/// answer have so exactly then, and exactly then get one id, however the answer is resolved. No target of it is to blame.
///
/// What `finish_module` answered to a well-scoped module of that kind, or this call to such a source, stays as it is, spans too, if no
/// direct `eval` and no `with` stood in it, not even an ignored one (`IsAnswer`).
///
/// # Errors
///
/// `TypesLeft` exactly where declarations of types stand in the program; the table is then as it was. Else those of the first of the
/// three passes that is refused: `MarksSpent` where the table has no room for a mark to each scope,
/// `CounterSpent` where no counter below the greatest `usize` gives an id a free text, `NotAssignable` where a parenthesised
/// target takes no value, `NoMemory`. The program is then empty, with its span and no `#!` line; the table may have gained
/// marks; and no comment has moved, but a beginning of the moves may have been made where the error is `NoMemory`.
pub fn chain_module<C: Comments>(
    alloc: Global,
    globals: &mut Globals,
    unresolved: Mark,
    top: Mark,
    config: Config,
    comments: Option<&mut C>,
    program: &mut Module,
) -> Result<(), PassError>
    requires unresolved { unresolved ≢ 0 }
    requires top { top ≢ 0 }
    ensures done { OnOk result (Chains unresolved top config globals.old (module_node program.old) globals.new (module_node program.new)) }
    ensures refused { OnErr result (IsEmptied program.old program.new) }
    ensures cause { IfErr result (IsChainRefusal unresolved top config globals.old (module_node program.old) globals.new) }
    ensures marks { HasFreshMarks top globals.old (module_node program.old) globals.new }
    ensures promises { IsSource config (module_node program.old) → MarksOk globals.old unresolved top → OnOk result (KeepsItsSource unresolved top globals.old globals.new (module_node program.old) (module_node program.new)) }
    ensures answer { IsSource config (module_node program.old) → ¬ HasEval (module_node program.old) → MarksOk globals.old unresolved top → OnOk result (IsAnswer (module_node program.new)) }
    ensures no_target { IsSource config (module_node program.old) → MarksOk globals.old unresolved top → IfErr result (λ e. e ≢ error.NotAssignable) }
    ensures again { IsAnswer (module_node program.old) → config.keep_class_names ≡ false → MarksOk globals.old unresolved top → OnOk result (module_node program.new ≡ module_node program.old) }
    ensures moved { OnOk result (Became (MovesFor C.moved (IsOnceHygienic unresolved top config globals.old (module_node program.old) globals.new) (module_node program.new)) comments.entry comments.exit) }
    ensures partly { OnErr result (Became (MovesPartly C.moved (IsOnceHygienic unresolved top config globals.old (module_node program.old) globals.new)) comments.entry comments.exit) }
    ensures unmoved { IfErr result (λ e. e ≢ error.NoMemory → Became (λ c d. d ≡ c) comments.entry comments.exit) }
{
    match comments {
        None => chain_module_with(
            alloc,
            globals,
            unresolved,
            top,
            config,
            &mut NoComments,
            program,
        ),
        Some(comments) => {
            chain_module_with(alloc, globals, unresolved, top, config, comments, program)
        }
    }
}

/// The same for a program of the goal Script.
///
/// A script without contexts and early errors of names that can be written down, in which nothing reads names and where classes don't
/// keep theirs, becomes one that the grammar derives, with the normal form that it had but for the names that it binds; no target of it
/// is to blame. What `chain_module` promises of names is promised of it if in addition (`IsPlainScript`) no plain function stands in a
/// block, catch body or case list of sloppy code, no label names a function, its program declares neither `undefined` nor `NaN` nor
/// `Infinity`, and no function has two parameters of one name.
///
/// What `finish_script` answered to a well-scoped script of that kind, or this call to such a source, stays as it is, spans too, if no
/// direct `eval` and no `with` stood in it, not even an ignored one (`IsAnswer`).
///
/// # Errors
///
/// Those of `chain_module`.
pub fn chain_script<C: Comments>(
    alloc: Global,
    globals: &mut Globals,
    unresolved: Mark,
    top: Mark,
    config: Config,
    comments: Option<&mut C>,
    program: &mut Script,
) -> Result<(), PassError>
    requires unresolved { unresolved ≢ 0 }
    requires top { top ≢ 0 }
    ensures done { OnOk result (Chains unresolved top config globals.old (script_node program.old) globals.new (script_node program.new)) }
    ensures refused { OnErr result (IsEmptiedScript program.old program.new) }
    ensures cause { IfErr result (IsChainRefusal unresolved top config globals.old (script_node program.old) globals.new) }
    ensures marks { HasFreshMarks top globals.old (script_node program.old) globals.new }
    ensures form { IsSource config (script_node program.old) → MarksOk globals.old unresolved top → OnOk result (KeepsItsForm (script_node program.old) (script_node program.new)) }
    ensures promises { IsSource config (script_node program.old) → IsPlainScript (script_node program.old) → MarksOk globals.old unresolved top → OnOk result (KeepsItsSource unresolved top globals.old globals.new (script_node program.old) (script_node program.new)) }
    ensures answer { IsSource config (script_node program.old) → IsPlainScript (script_node program.old) → ¬ HasEval (script_node program.old) → MarksOk globals.old unresolved top → OnOk result (IsAnswer (script_node program.new)) }
    ensures no_target { IsSource config (script_node program.old) → MarksOk globals.old unresolved top → IfErr result (λ e. e ≢ error.NotAssignable) }
    ensures again { IsAnswer (script_node program.old) → config.keep_class_names ≡ false → MarksOk globals.old unresolved top → OnOk result (script_node program.new ≡ script_node program.old) }
    ensures moved { OnOk result (Became (MovesFor C.moved (IsOnceHygienic unresolved top config globals.old (script_node program.old) globals.new) (script_node program.new)) comments.entry comments.exit) }
    ensures partly { OnErr result (Became (MovesPartly C.moved (IsOnceHygienic unresolved top config globals.old (script_node program.old) globals.new)) comments.entry comments.exit) }
    ensures unmoved { IfErr result (λ e. e ≢ error.NoMemory → Became (λ c d. d ≡ c) comments.entry comments.exit) }
{
    match comments {
        None => chain_script_with(
            alloc,
            globals,
            unresolved,
            top,
            config,
            &mut NoComments,
            program,
        ),
        Some(comments) => {
            chain_script_with(alloc, globals, unresolved, top, config, comments, program)
        }
    }
}

// `chain_module` with comments.
fn chain_module_with<C: Comments>(
    alloc: Global,
    globals: &mut Globals,
    unresolved: Mark,
    top: Mark,
    config: Config,
    comments: &mut C,
    program: &mut Module,
) -> Result<(), PassError>
    requires unresolved { unresolved ≢ 0 }
    requires top { top ≢ 0 }
    ensures done { OnOk result (Chains unresolved top config globals.old (module_node program.old) globals.new (module_node program.new)) }
    ensures refused { OnErr result (IsEmptied program.old program.new) }
    ensures cause { IfErr result (IsChainRefusal unresolved top config globals.old (module_node program.old) globals.new) }
    ensures marks { HasFreshMarks top globals.old (module_node program.old) globals.new }
    ensures promises { IsSource config (module_node program.old) → MarksOk globals.old unresolved top → OnOk result (KeepsItsSource unresolved top globals.old globals.new (module_node program.old) (module_node program.new)) }
    ensures answer { IsSource config (module_node program.old) → ¬ HasEval (module_node program.old) → MarksOk globals.old unresolved top → OnOk result (IsAnswer (module_node program.new)) }
    ensures no_target { IsSource config (module_node program.old) → MarksOk globals.old unresolved top → IfErr result (λ e. e ≢ error.NotAssignable) }
    ensures again { IsAnswer (module_node program.old) → config.keep_class_names ≡ false → MarksOk globals.old unresolved top → OnOk result (module_node program.new ≡ module_node program.old) }
    ensures moved { OnOk result (MovesFor C.moved (IsOnceHygienic unresolved top config globals.old (module_node program.old) globals.new) (module_node program.new) comments.old comments.new) }
    ensures partly { OnErr result (MovesPartly C.moved (IsOnceHygienic unresolved top config globals.old (module_node program.old) globals.new) comments.old comments.new) }
    ensures unmoved { IfErr result (λ e. e ≢ error.NoMemory → comments.new ≡ comments.old) }
{
    if types_in_module(program) {
        *program = empty_module(alloc, program.span);
        return Err(PassError::TypesLeft);
    }
    types_are_told();
    chaining_keeps_forms();
    chaining_keeps_sources();
    resolved_sources_are_ready();
    a_chain_changes_nothing();
    module_fits(program);
    let mut module = mem::replace(program, empty_module(alloc, program.span));
    let mut resolver = resolver(unresolved, top);
    resolver.visit_mut_module(alloc, globals, &mut module)?;
    finish_module_with(alloc, globals, config, comments, &mut module)?;
    *program = module;
    Ok(())
}

// `chain_script` with comments.
fn chain_script_with<C: Comments>(
    alloc: Global,
    globals: &mut Globals,
    unresolved: Mark,
    top: Mark,
    config: Config,
    comments: &mut C,
    program: &mut Script,
) -> Result<(), PassError>
    requires unresolved { unresolved ≢ 0 }
    requires top { top ≢ 0 }
    ensures done { OnOk result (Chains unresolved top config globals.old (script_node program.old) globals.new (script_node program.new)) }
    ensures refused { OnErr result (IsEmptiedScript program.old program.new) }
    ensures cause { IfErr result (IsChainRefusal unresolved top config globals.old (script_node program.old) globals.new) }
    ensures marks { HasFreshMarks top globals.old (script_node program.old) globals.new }
    ensures form { IsSource config (script_node program.old) → MarksOk globals.old unresolved top → OnOk result (KeepsItsForm (script_node program.old) (script_node program.new)) }
    ensures promises { IsSource config (script_node program.old) → IsPlainScript (script_node program.old) → MarksOk globals.old unresolved top → OnOk result (KeepsItsSource unresolved top globals.old globals.new (script_node program.old) (script_node program.new)) }
    ensures answer { IsSource config (script_node program.old) → IsPlainScript (script_node program.old) → ¬ HasEval (script_node program.old) → MarksOk globals.old unresolved top → OnOk result (IsAnswer (script_node program.new)) }
    ensures no_target { IsSource config (script_node program.old) → MarksOk globals.old unresolved top → IfErr result (λ e. e ≢ error.NotAssignable) }
    ensures again { IsAnswer (script_node program.old) → config.keep_class_names ≡ false → MarksOk globals.old unresolved top → OnOk result (script_node program.new ≡ script_node program.old) }
    ensures moved { OnOk result (MovesFor C.moved (IsOnceHygienic unresolved top config globals.old (script_node program.old) globals.new) (script_node program.new) comments.old comments.new) }
    ensures partly { OnErr result (MovesPartly C.moved (IsOnceHygienic unresolved top config globals.old (script_node program.old) globals.new) comments.old comments.new) }
    ensures unmoved { IfErr result (λ e. e ≢ error.NoMemory → comments.new ≡ comments.old) }
{
    if types_in_script(program) {
        *program = empty_script(alloc, program.span);
        return Err(PassError::TypesLeft);
    }
    types_are_told();
    chaining_keeps_forms();
    chaining_keeps_sources();
    resolved_sources_are_ready();
    a_chain_changes_nothing();
    script_fits(program);
    let mut script = mem::replace(program, empty_script(alloc, program.span));
    let mut resolver = resolver(unresolved, top);
    resolver.visit_mut_script(alloc, globals, &mut script)?;
    finish_script_with(alloc, globals, config, comments, &mut script)?;
    *program = script;
    Ok(())
}
