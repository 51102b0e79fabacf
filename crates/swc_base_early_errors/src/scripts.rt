//! What is asked of the names of a script alone.
ghost use Rattle.std.specs.Prelude.{◌≡◌, IfOk, IsTrue, Some, length};
ghost use Rattle.swc_tree_scoping.specs.Scopes.{scope_count};
ghost use Rattle.swc_tree_scoping.specs.Places.{opened, program_place};
ghost use Rattle.swc_tree_scoping.specs.Resolved.{is_script as is_script_node};
ghost use Rattle.swc_tree_scoping.specs.WellScoped.{IsClean};
ghost use Rattle.swc_base_early_errors.specs.Errors.{TellsOfScripts};

use crate::claims::Rule;
use crate::labels::labels_no_function;
use crate::sought::{Sought, finds};
use crate::walk::has_two;
use std::alloc::{AllocError, Global};
use swc_base_resolver_program::{ScopeNames, Stage, gather_program};
use swc_tree_node::{Kind, Node};
use swc_tree_scoping::Scope;

/// What a script has that keeps what is promised of it from being promised, in the order in which it is looked for.
#[derive(Clone, Copy, Debug, PartialEq, Eq)]
pub enum ScriptFault {
    /// A plain function stands in a block, a case list or a catch body of sloppy code (ECMA-262, B.3.2).
    SloppyFunction,
    /// A label names a function declaration (B.3.1).
    Label,
    /// The program declares `undefined`, `NaN` or `Infinity` (19.1).
    GlobalValue,
    /// A function has two parameters of one name (15.1.1 allows it in sloppy code).
    RepeatedParameter,
}

/// The first of these that a program has, if it is a script; of a module none is asked.
///
/// It takes memory in step with the names that the scopes declare, and time in step with the program.
///
/// # Errors
///
/// Where memory was refused.
pub fn unplain_part(alloc: Global, program: &Node) -> Result<Option<ScriptFault>, AllocError>
    ensures { opened program_place program.now ≡ Some Scope.Program → IsClean program.now → IfOk result (TellsOfScripts program.now) }
{
    if !is_script(program) {
        return Ok(None);
    }
    let tables = gather_program(alloc, Stage::Bind, program, 0)?;
    first_fault(alloc, tables.as_slice(), program)
}

// The first fault of a script, where the names that the scopes take are given.
fn first_fault(
    alloc: Global,
    tables: &[ScopeNames],
    script: &Node,
) -> Result<Option<ScriptFault>, AllocError>
    requires size { length tables.now ≡ scope_count program_place script.now }
    requires goal { IsTrue (is_script_node script.now) }
    ensures { opened program_place script.now ≡ Some Scope.Program → IsClean script.now → IfOk result (TellsOfScripts script.now) }
{
    let is_sloppy = finds(Sought::SloppyFunction, tables, script);
    if is_sloppy {
        return Ok(Some(ScriptFault::SloppyFunction));
    }
    let is_unlabelled = labels_no_function(script);
    if !is_unlabelled {
        return Ok(Some(ScriptFault::Label));
    }
    let is_global = finds(Sought::GlobalValue, tables, script);
    if is_global {
        return Ok(Some(ScriptFault::GlobalValue));
    }
    let is_repeated = has_two(alloc, Rule::Parameters, script)?;
    if is_repeated {
        return Ok(Some(ScriptFault::RepeatedParameter));
    }
    Ok(None)
}

fn is_script(program: &Node) -> bool
    ensures { result ≡ is_script_node program.now }
{
    matches!(program, Node::Tree(Kind::Script, _))
}
