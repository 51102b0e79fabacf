//! Identifiers that are looked for one by one.
ghost use Rattle.std.specs.Prelude.{◌≡◌, ◌↔◌, IsTrue, [], false, length};
ghost use Rattle.swc_tree_scoping.specs.Places.{program_place};
ghost use Rattle.swc_tree_scoping.specs.Resolved.{is_global_value as names_global_value};
ghost use Rattle.swc_tree_scoping.specs.Scopes.{scope_count};
ghost use Rattle.swc_base_resolver_program.specs.Names.{ways_in};
ghost use Rattle.swc_base_scope_checks.specs.Asked.{Passes};
ghost use Rattle.swc_base_early_errors.specs.Asked.{is_eval_or_arguments as names_eval_or_arguments, is_found, is_program};

use swc_base_resolver_program::{Env, ScopeNames, TakenNames, taker};
use swc_base_scope_checks::{Question, has_identifier};
use swc_tree_marks::Ident;
use swc_tree_node::Node;
use swc_tree_scoping::{Place, Standing, is_binding};

/// What is looked for.
#[derive(Clone, Copy)]
pub enum Sought {
    /// The name of a plain function in a block of sloppy code.
    SloppyFunction,
    /// A binding of `undefined`, `NaN` or `Infinity` that the program takes.
    GlobalValue,
    /// A name in an export list that the program does not declare, where plain functions in blocks of sloppy code are left out.
    UndeclaredExport,
    /// A binding of `eval` or `arguments`.
    EvalOrArguments,
}

/// Looks for it, where the names that the scopes take are given.
#[derive(Clone, Copy)]
pub struct Look<'a> {
    pub sought: Sought,
    pub bound: TakenNames<'a>,
}

impl Question for Look<'_> {
    ghost use Rattle.swc_base_resolver_program.specs.Lookup.{names_in};
    ghost use Rattle.swc_base_early_errors.specs.Asked.{is_found};

    ghost is_sought = { λ look place ident listed env. is_found look.sought (names_in look.bound) place ident listed env };

    fn is_sought(&self, place: Place, ident: &Ident, listed: bool, env: &Env) -> bool {
        let name = ident.sym.as_str();
        match self.sought {
            Sought::SloppyFunction => matches!(place.standing, Standing::SloppyFunction),
            Sought::GlobalValue => {
                is_binding(place.standing)
                    && is_global_value(name)
                    && is_program_number(taker(env, place.standing))
            }
            Sought::UndeclaredExport => {
                listed
                    && matches!(place.standing, Standing::Reference)
                    && !self.bound.ways(0, name).is_settled()
            }
            Sought::EvalOrArguments => is_binding(place.standing) && is_eval_or_arguments(name),
        }
    }
}

fn is_global_value(name: &str) -> bool
    ensures { result ≡ names_global_value name.now }
{
    name == "undefined" || name == "NaN" || name == "Infinity"
}

fn is_eval_or_arguments(name: &str) -> bool
    ensures { result ≡ names_eval_or_arguments name.now }
{
    name == "eval" || name == "arguments"
}

// Whether a scope is the program.
fn is_program_number(scope: Option<usize>) -> bool
    ensures { result ≡ is_program scope }
{
    match scope {
        Some(number) => number == 0,
        None => false,
    }
}

/// Whether one stands in the program, where the names that its scopes take are given.
pub fn finds(sought: Sought, tables: &[ScopeNames], program: &Node) -> bool
    requires { length tables.now ≡ scope_count program_place program.now }
    ensures { IsTrue result ↔ Passes (λ w i listed env. is_found sought (ways_in tables.now) w i listed env) false [] 0 program_place program.now }
{
    let bound = TakenNames::new(tables);
    has_identifier(&Look { sought, bound }, program)
}
