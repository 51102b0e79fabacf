//! Early errors of names.
ghost use Rattle.std.specs.Prelude.{◌≡◌, IfOk, Some, [], length};
ghost use Rattle.swc_tree_scoping.specs.Scopes.{scope_count};
ghost use Rattle.swc_base_resolver_program.specs.Walks.{Reaches, Takes};
ghost use Rattle.swc_tree_scoping.specs.Places.{opened, program_place};
ghost use Rattle.swc_tree_scoping.specs.WellScoped.{IsClean, is_module as is_module_node};
ghost use Rattle.swc_tree_renaming.specs.Apart.{IsPlainIfScript};
ghost use Rattle.swc_base_early_errors.specs.Errors.{TellsOfNames};

use crate::claims::Rule;
use crate::sought::{Sought, finds};
use crate::walk::has_two;
use std::alloc::{AllocError, Global};
use swc_base_resolver_program::{ScopeNames, Stage, gather_program};
use swc_base_scope_checks::{Barrier, keeps_variable};
use swc_tree_node::{Kind, Node};
use swc_tree_scoping::Scope;

/// An early error of names, in the order in which they are looked for.
#[derive(Clone, Copy, Debug, PartialEq, Eq)]
pub enum NameError {
    /// An export list names what the program does not declare (ECMA-262, 16.2.3.1).
    Export,
    /// A scope declares a name twice, once as a lexical name (14.2.1, 14.12.1, 16.1.1, 16.2.1.1).
    Twice,
    /// A `var` meets a lexical name of its name on its way out (14.2.1, 14.3.1.1, 14.7.4.1).
    Variable,
    /// A function that may not have them has two parameters of one name (15.1.1, 15.3.1, 15.5.1).
    Parameter,
    /// `eval` or `arguments` is declared, which strict code may not (13.1.1).
    EvalOrArguments,
}

/// The first early error of the names of a program.
///
/// A program without contexts that is a module, or a script in which `unplain_part` finds nothing, is told just so. It takes memory
/// in step with the names that the scopes declare, and time in step with the program, and for each variable a look into each block,
/// case list, loop and catch clause round it.
///
/// # Errors
///
/// Where memory was refused.
pub fn error_of_names(alloc: Global, program: &Node) -> Result<Option<NameError>, AllocError>
    ensures { opened program_place program.now ≡ Some Scope.Program → IsClean program.now → IsPlainIfScript program.now → IfOk result (TellsOfNames program.now) }
{
    let tables = gather_program(alloc, Stage::Bind, program, 0)?;
    first_error(alloc, tables.as_slice(), program)
}

// The same, where the names that the scopes take are given.
fn first_error(
    alloc: Global,
    tables: &[ScopeNames],
    program: &Node,
) -> Result<Option<NameError>, AllocError>
    requires size { length tables.now ≡ scope_count program_place program.now }
    requires names { Takes tables.now (Reaches Stage.Bind [] 0 program_place program.now) }
    ensures { opened program_place program.now ≡ Some Scope.Program → IsClean program.now → IsPlainIfScript program.now → IfOk result (TellsOfNames program.now) }
{
    let is_undeclared = finds(Sought::UndeclaredExport, tables, program);
    if is_undeclared {
        return Ok(Some(NameError::Export));
    }
    let is_twice = has_two(alloc, Rule::Lexical(is_module(program)), program)?;
    if is_twice {
        return Ok(Some(NameError::Twice));
    }
    let is_kept = keeps_variable(Barrier::Lexical, tables, program);
    if is_kept {
        return Ok(Some(NameError::Variable));
    }
    let is_repeated = has_two(alloc, Rule::Parameters, program)?;
    if is_repeated {
        return Ok(Some(NameError::Parameter));
    }
    let is_eval = finds(Sought::EvalOrArguments, tables, program);
    if is_eval {
        return Ok(Some(NameError::EvalOrArguments));
    }
    Ok(None)
}

fn is_module(program: &Node) -> bool
    ensures { result ≡ is_module_node program.now }
{
    matches!(program, Node::Tree(Kind::Module, _))
}
