//! Names that a scope keeps from the function, static block or program that is to take them.
ghost use Rattle.std.specs.Prelude.{◌≡◌, ◌↔◌, not, IsTrue, IfOk, Some, [], length};
ghost use Rattle.swc_tree_scoping.specs.Places.{opened, program_place};
ghost use Rattle.swc_tree_scoping.specs.Scopes.{scope_count};
ghost use Rattle.swc_tree_scoping.specs.WellScoped.{NoVariablePasses};
ghost use Rattle.swc_base_resolver_program.specs.Walks.{Reaches, Takes};
ghost use Rattle.swc_base_scope_checks.specs.Barriers.{barred};
ghost use Rattle.swc_base_scope_checks.specs.Caught.{NoCaughtName, NonePasses, is_asked as asks_about};

use crate::barrier::{Barrier, gets_out};
use crate::walk::{Question, has_identifier};
use std::alloc::{AllocError, Global};
use swc_base_resolver_program::{Env, ScopeNames, Stage, TakenNames, gather_program};
use swc_tree_marks::Ident;
use swc_tree_node::Node;
use swc_tree_scoping::{Place, Scope, Standing};

/// Looks for a name that a scope bars: a variable, or if wanted a plain function in a block of sloppy code.
#[derive(Clone, Copy)]
pub struct Kept<'a> {
    pub functions: bool,
    pub barrier: Barrier,
    pub bound: TakenNames<'a>,
}

fn is_asked(functions: bool, standing: Standing) -> bool
    ensures { result ≡ asks_about functions standing }
{
    match standing {
        Standing::Variable => true,
        Standing::SloppyFunction => functions,
        _ => false,
    }
}

impl Question for Kept<'_> {
    ghost use Rattle.swc_base_scope_checks.specs.Kept.{is_kept};

    ghost is_sought = { λ kept place ident listed env. is_kept kept place ident env };

    fn is_sought(&self, place: Place, ident: &Ident, _listed: bool, env: &Env) -> bool {
        is_asked(self.functions, place.standing)
            && !gets_out(env, self.barrier, &self.bound, ident.sym.as_str())
    }
}

// Whether a scope keeps a name, where the names that the scopes take are given.
fn keeps_name(functions: bool, barrier: Barrier, tables: &[ScopeNames], program: &Node) -> bool
    requires size { length tables.now ≡ scope_count program_place program.now }
    requires names { Takes tables.now (Reaches Stage.Bind [] 0 program_place program.now) }
    ensures { opened program_place program.now ≡ Some Scope.Program → IsTrue (not result) ↔ NonePasses (asks_about functions) (barred barrier) program.now }
{
    let kept = Kept {
        functions,
        barrier,
        bound: TakenNames::new(tables),
    };
    has_identifier(&kept, program)
}

/// Whether a scope keeps a variable, where the names that the scopes take are given.
pub fn keeps_variable(barrier: Barrier, tables: &[ScopeNames], program: &Node) -> bool
    requires size { length tables.now ≡ scope_count program_place program.now }
    requires names { Takes tables.now (Reaches Stage.Bind [] 0 program_place program.now) }
    ensures { opened program_place program.now ≡ Some Scope.Program → IsTrue (not result) ↔ NoVariablePasses (barred barrier) program.now }
{
    keeps_name(false, barrier, tables, program)
}

/// Whether a `var` of a program, or a plain function in a block of its sloppy code, meets a catch parameter of its name on its way out
/// (ECMA-262, B.3.2, B.3.4).
///
/// It takes memory in step with the names that the scopes declare, and time in step with the program, and for each such name a look
/// into each block, case list, loop and catch clause round it.
///
/// # Errors
///
/// Where memory was refused.
pub fn catches_name(alloc: Global, program: &Node) -> Result<bool, AllocError>
    ensures { opened program_place program.now ≡ Some Scope.Program → IfOk result (λ caught. IsTrue (not caught) ↔ NoCaughtName program.now) }
{
    let tables = gather_program(alloc, Stage::Bind, program, 0)?;
    let caught = keeps_name(true, Barrier::CatchParameter, tables.as_slice(), program);
    Ok(caught)
}
