//! Scripts that keep all their names.
ghost use Rattle.std.specs.Prelude.{◌≡◌, ◌↔◌, IsTrue, IfOk, [], false, length};
ghost use Rattle.swc_tree_scoping.specs.Places.{program_place};
ghost use Rattle.swc_tree_scoping.specs.Resolved.{is_global_value as names_global_value, is_script as is_script_node};
ghost use Rattle.swc_tree_scoping.specs.Scopes.{scope_count};
ghost use Rattle.swc_base_early_errors.specs.Lower.swc_base_scope_checks.specs.Asked.{Passes};
ghost use Rattle.swc_base_early_errors.specs.Asked.{is_program};
ghost use Rattle.swc_base_mangle.specs.Mangled.{HasStrays};
ghost use Rattle.swc_base_mangle.specs.Strays.{is_stray};

use std::alloc::{AllocError, Global};
use swc_base_early_errors::swc_base_scope_checks::{Question, has_identifier};
use swc_base_resolver_program::{Env, ScopeNames, Stage, gather_program, taker};
use swc_tree_marks::Ident;
use swc_tree_node::{Kind, Node};
use swc_tree_scoping::{Place, Standing, is_binding};

// Looks for a stray.
struct Stray;

impl Question for Stray {
    ghost use Rattle.swc_base_mangle.specs.Strays.{is_stray};

    ghost is_sought = { λ _ place ident _ env. is_stray place ident env };

    fn is_sought(&self, place: Place, ident: &Ident, _listed: bool, env: &Env) -> bool {
        matches!(place.standing, Standing::SloppyFunction)
            || is_binding(place.standing)
                && is_global_value(ident.sym.as_str())
                && is_program_number(taker(env, place.standing))
    }
}

fn is_global_value(name: &str) -> bool
    ensures { result ≡ names_global_value name.now }
{
    name == "undefined" || name == "NaN" || name == "Infinity"
}

// Whether a scope is the program.
fn is_program_number(scope: Option<usize>) -> bool
    ensures { result ≡ is_program scope }
{
    match scope {
        Some(number) => number == 0,
        None => false,
    }
}

// Whether a stray stands in a program that has a table for each scope.
fn finds_stray(tables: &[ScopeNames], program: &Node) -> bool
    requires { length tables.now ≡ scope_count program_place program.now }
    ensures { IsTrue result ↔ Passes (λ w i listed env. is_stray w i env) false [] 0 program_place program.now }
{
    let _scopes = tables.len(); // so many are counted on the way
    has_identifier(&Stray, program)
}

// Whether a script has strays that has a table for each scope.
fn any_stray(tables: &[ScopeNames], script: &Node) -> bool
    requires size { length tables.now ≡ scope_count program_place script.now }
    requires goal { IsTrue (is_script_node script.now) }
    ensures { IsTrue result ↔ HasStrays script.now }
{
    finds_stray(tables, script)
}

fn is_script(program: &Node) -> bool
    ensures { result ≡ is_script_node program.now }
{
    matches!(program, Node::Tree(Kind::Script, _))
}

/// Whether a program is a script that has strays: a plain function in a block, a case list or a catch body of sloppy code (ECMA-262,
/// B.3.2), or a declaration of `undefined`, `NaN` or `Infinity` by the program (19.1). Of such a script no renaming is known to be right.
///
/// Of a script it takes memory in step with the names that the scopes declare, and time in step with the program.
///
/// # Errors
///
/// Where memory was refused.
pub fn has_strays(alloc: Global, program: &Node) -> Result<bool, AllocError>
    ensures { IfOk result (λ has. IsTrue has ↔ HasStrays program.now) }
{
    if !is_script(program) {
        return Ok(false);
    }
    let tables = gather_program(alloc, Stage::Bind, program, 0)?;
    Ok(any_stray(tables.as_slice(), program))
}
