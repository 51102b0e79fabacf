//! Short names for programs.
ghost use Rattle.std.specs.Prelude.{◌≢◌, OnOk, OnErr, IfErr};
ghost use Rattle.swc_tree_marks.specs.declared.error.PassError.TheVariants as error;
ghost use Rattle.swc_tree.specs.Passes.{IsEmptied, IsEmptiedScript};
ghost use Rattle.swc_tree_modules.specs.Nodes.{module_node, script_node};
ghost use Rattle.swc_tree_renaming.specs.Apart.{IsPlainScript};
ghost use Rattle.swc_base_resolver_program.specs.Marked.{MarksOk};
ghost use Rattle.swc_base_mangle_laws.specs.Lower.swc_ecma_transforms_base_laws.specs.Headline.{KeepsItsForm, KeepsItsSource};
ghost use Rattle.swc_base_mangle_laws.specs.Lower.swc_ecma_transforms_base_laws.specs.Sources.{IsSource};
ghost use Rattle.swc_ecma_transforms_base.specs.Mangled.{GainsMarks, IsMadeShort, IsRefusal};

use crate::nodes::mangle_node;
use std::alloc::Global;
use std::mem;
use swc_base_mangle_laws::{mangled_sources_are_kept, mangled_sources_keep_forms};
use swc_base_rename_substitution::Config;
use swc_tree::{
    Globals, Mark, Module, Opened, PassError, Script, empty_module, empty_script, module_fits,
    script_fits, types_in_module, types_in_script,
};

/// Resolves a module, gives its ids short texts, clears its contexts and sets its parentheses anew. The ids that are used most get the
/// shortest texts that they can share (`texts_by_use`). With `keeps_top` names that the module's own scope declares keep theirs. The
/// configuration's top mark is that of the program; `marks_ok` tells whether both marks can be used.
///
/// A source of which `chain_module` promises something becomes the same module but for the names that it binds (`AlphaEquivalent`), as
/// that call has it; of a second run nothing is promised.
///
/// # Errors
///
/// `TypesLeft` exactly where declarations of types stand in the program; the table is then as it was. Else `MarksSpent` where the table has
/// no room for a mark to each scope, `CounterSpent` where no counter below the greatest `usize` gives an id a free text, `NotAssignable`
/// where a parenthesised target takes no value, `NoMemory`. The program is then empty, with its span and no `#!` line; the table may have
/// gained marks.
pub fn mangle_module(
    alloc: Global,
    globals: &mut Globals,
    unresolved: Mark,
    config: &Config,
    keeps_top: bool,
    program: &mut Module,
) -> Result<(), PassError>
    requires { MarksOk globals.old unresolved config.now.top_level_mark }
    ensures done { OnOk result (IsMadeShort unresolved config.now keeps_top globals.old (module_node program.old) globals.new (module_node program.new)) }
    ensures promises { IsSource config.now (module_node program.old) → OnOk result (KeepsItsSource unresolved config.now.top_level_mark globals.old globals.new (module_node program.old) (module_node program.new)) }
    ensures refused { OnErr result (IsEmptied program.old program.new) }
    ensures cause { IfErr result (IsRefusal unresolved config.now keeps_top globals.old (module_node program.old) globals.new) }
    ensures no_target { IsSource config.now (module_node program.old) → IfErr result (λ e. e ≢ error.NotAssignable) }
    ensures marks { GainsMarks config.now.top_level_mark globals.old (module_node program.old) globals.new }
{
    mangled_sources_are_kept();
    mangled_sources_keep_forms();
    module_fits(program);
    make_module(alloc, globals, unresolved, config, keeps_top, program)
}

/// The same for a program of the goal Script, whose top names other scripts of a page see: `keeps_top` asks that these stay.
///
/// A plain source keeps what `chain_script` promises of one, but for a second run; each other source keeps its form. A script with strays
/// keeps all its names: a plain function in a block of sloppy code, or `undefined`, `NaN` or `Infinity` as a name of the program.
///
/// # Errors
///
/// Those of `mangle_module`.
pub fn mangle_script(
    alloc: Global,
    globals: &mut Globals,
    unresolved: Mark,
    config: &Config,
    keeps_top: bool,
    program: &mut Script,
) -> Result<(), PassError>
    requires { MarksOk globals.old unresolved config.now.top_level_mark }
    ensures done { OnOk result (IsMadeShort unresolved config.now keeps_top globals.old (script_node program.old) globals.new (script_node program.new)) }
    ensures form { IsSource config.now (script_node program.old) → OnOk result (KeepsItsForm (script_node program.old) (script_node program.new)) }
    ensures promises { IsSource config.now (script_node program.old) → IsPlainScript (script_node program.old) → OnOk result (KeepsItsSource unresolved config.now.top_level_mark globals.old globals.new (script_node program.old) (script_node program.new)) }
    ensures refused { OnErr result (IsEmptiedScript program.old program.new) }
    ensures cause { IfErr result (IsRefusal unresolved config.now keeps_top globals.old (script_node program.old) globals.new) }
    ensures no_target { IsSource config.now (script_node program.old) → IfErr result (λ e. e ≢ error.NotAssignable) }
    ensures marks { GainsMarks config.now.top_level_mark globals.old (script_node program.old) globals.new }
{
    mangled_sources_are_kept();
    mangled_sources_keep_forms();
    script_fits(program);
    make_script(alloc, globals, unresolved, config, keeps_top, program)
}

// What becomes of a module.
fn make_module(
    alloc: Global,
    globals: &mut Globals,
    unresolved: Mark,
    config: &Config,
    keeps_top: bool,
    program: &mut Module,
) -> Result<(), PassError>
    requires { MarksOk globals.old unresolved config.now.top_level_mark }
    ensures done { OnOk result (IsMadeShort unresolved config.now keeps_top globals.old (module_node program.old) globals.new (module_node program.new)) }
    ensures refused { OnErr result (IsEmptied program.old program.new) }
    ensures cause { IfErr result (IsRefusal unresolved config.now keeps_top globals.old (module_node program.old) globals.new) }
    ensures marks { GainsMarks config.now.top_level_mark globals.old (module_node program.old) globals.new }
{
    if types_in_module(program) {
        *program = empty_module(alloc, program.span);
        return Err(PassError::TypesLeft);
    }
    let module = mem::replace(program, empty_module(alloc, program.span));
    let node = module.into_node(alloc)?;
    let answer = mangle_node(alloc, globals, unresolved, config, keeps_top, node)?;
    *program = Module::from_node(answer);
    Ok(())
}

// What becomes of a script.
fn make_script(
    alloc: Global,
    globals: &mut Globals,
    unresolved: Mark,
    config: &Config,
    keeps_top: bool,
    program: &mut Script,
) -> Result<(), PassError>
    requires { MarksOk globals.old unresolved config.now.top_level_mark }
    ensures done { OnOk result (IsMadeShort unresolved config.now keeps_top globals.old (script_node program.old) globals.new (script_node program.new)) }
    ensures refused { OnErr result (IsEmptiedScript program.old program.new) }
    ensures cause { IfErr result (IsRefusal unresolved config.now keeps_top globals.old (script_node program.old) globals.new) }
    ensures marks { GainsMarks config.now.top_level_mark globals.old (script_node program.old) globals.new }
{
    if types_in_script(program) {
        *program = empty_script(alloc, program.span);
        return Err(PassError::TypesLeft);
    }
    let script = mem::replace(program, empty_script(alloc, program.span));
    let node = script.into_node(alloc)?;
    let answer = mangle_node(alloc, globals, unresolved, config, keeps_top, node)?;
    *program = Script::from_node(answer);
    Ok(())
}
