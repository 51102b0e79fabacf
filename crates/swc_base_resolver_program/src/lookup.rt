//! What the scopes declare.
ghost use Rattle.std.specs.Prelude.{◌≡◌};
ghost use Rattle.std.specs.List.{list_any};
ghost use Rattle.swc_base_resolver_program.specs.Lookup.{declares_in, function_owner_in, layers, meaning_in, names_in, open_of, otherwise_in, tables_in, type_meaning_in, variable_owner_in};
ghost use Rattle.swc_base_resolver_program.specs.Names.{ways_in};
ghost use Rattle.swc_base_resolver_program.specs.Reached.{takes_reaching};

use crate::env::{Env, Layer, hoists, hoists_from, meets, taker, variable_scope};
use crate::names::{ScopeNames, Ways};
use swc_tree_scoping::Standing;

/// The names that the scopes take, the scopes from the front.
#[derive(Clone, Copy)]
pub struct TakenNames<'a> {
    scopes: &'a [ScopeNames],
}

impl<'a> TakenNames<'a> {
    /// The names of those scopes.
    pub fn new(scopes: &'a [ScopeNames]) -> TakenNames<'a>
        ensures { names_in result ≡ ways_in scopes.now }
    {
        TakenNames { scopes }
    }

    /// The ways in which a scope takes a name.
    pub fn ways(&self, number: usize, name: &str) -> Ways
        ensures { result ≡ names_in self.now number name.now }
    {
        match self.scopes.get(number) {
            Some(names) => names.get(name),
            None => Ways::none(),
        }
    }

    /// Whether a scope takes a variable or a plain function of sloppy code in a block.
    pub fn any_can_reach(&self) -> bool
        ensures { result ≡ list_any takes_reaching self.now.scopes.now }
    {
        self.scopes.iter().any(|names| names.any_can_reach())
    }
}

/// What the scopes take, and what reaches them besides: as plain functions those that are hoisted to them, as
/// variables those that stand below no catch clause whose parameter has the name.
#[derive(Clone, Copy)]
pub struct Declarations<'a> {
    pub bound: TakenNames<'a>,
    pub reached: TakenNames<'a>,
}

/// The number of the scope that a name means as a value, if one declares it so.
#[tactic(auto, using(crate::proofs::Open::layers_top, crate::proofs::Open::layers_in))]
pub fn meaning(env: &Env, declarations: &Declarations, name: &str) -> Option<usize>
    ensures { result ≡ meaning_in (tables_in declarations.now) name.now (layers env.now) }
{
    match env {
        Env::Top => None,
        Env::In(layer, outer) => {
            if declares(*layer, outer, declarations, name) {
                Some(layer.number)
            } else {
                meaning(outer, declarations, name)
            }
        }
    }
}

// Whether a scope declares the name as a value for what sees so much of it.
fn declares(layer: Layer, outer: &Env, declarations: &Declarations, name: &str) -> bool
    ensures { result ≡ declares_in (tables_in declarations.now) name.now (open_of layer) (layers outer.now) }
{
    let Declarations { bound, reached } = declarations;
    let ways = bound.ways(layer.number, name);
    if !layer.whole {
        return ways.is_parameter();
    }
    if ways.is_settled() || ways.is_member() {
        return true;
    }
    if reached
        .ways(layer.number, name)
        .has(Standing::SloppyFunction)
    {
        return true;
    }
    ways.has(Standing::SloppyFunction) && !hoists_from(layer, outer, bound, name)
}

/// The number of the scope that a name means as a type, if one declares it so.
#[tactic(auto, using(crate::proofs::Open::layers_top, crate::proofs::Open::layers_in))]
pub fn type_meaning(env: &Env, bound: &TakenNames, name: &str) -> Option<usize>
    ensures { result ≡ type_meaning_in (names_in bound.now) name.now (layers env.now) }
{
    match env {
        Env::Top => None,
        Env::In(layer, outer) => {
            if layer.whole && bound.ways(layer.number, name).is_type() {
                Some(layer.number)
            } else {
                type_meaning(outer, bound, name)
            }
        }
    }
}

/// The number of the scope whose mark a variable gets: of the function, static block or program that declares it, or
/// of the catch clause whose parameter has its name, where the name is declared outside by something else.
pub fn variable_owner(env: &Env, declarations: &Declarations, name: &str) -> Option<usize>
    ensures { result ≡ variable_owner_in (tables_in declarations.now) name.now (layers env.now) }
{
    match variable_scope(env) {
        None => None,
        Some(scope) => {
            if declares_otherwise(scope, declarations, name) {
                meets(env, &declarations.bound, name)
            } else {
                Some(scope)
            }
        }
    }
}

// Whether a scope declares the name by something else than variables below a catch clause whose parameter has it.
fn declares_otherwise(scope: usize, declarations: &Declarations, name: &str) -> bool
    ensures { result ≡ otherwise_in (tables_in declarations.now) name.now scope }
{
    let reached = declarations.reached.ways(scope, name);
    declarations.bound.ways(scope, name).is_no_variable()
        || reached.has(Standing::SloppyFunction)
        || reached.has(Standing::Variable)
}

/// The number of the scope that declares a plain function of a block in sloppy code.
pub fn function_owner(env: &Env, declarations: &Declarations, name: &str) -> Option<usize>
    ensures { result ≡ function_owner_in (tables_in declarations.now) name.now (layers env.now) }
{
    if hoists(env, &declarations.bound, name) {
        variable_scope(env)
    } else {
        taker(env, Standing::SloppyFunction)
    }
}
