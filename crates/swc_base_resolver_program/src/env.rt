//! The scopes that are open at a node.
ghost use Rattle.std.specs.Prelude.{◌≡◌};
ghost use Rattle.swc_tree_scoping.specs.declared.places.View.{View as View'};
ghost use Rattle.swc_base_resolver_program.specs.Lookup.{hoists_from as hoists_from_in, hoists_in, layers, meets_in, names_in, open_of, passes_in, taker_in};
ghost use Rattle.swc_base_resolver_program.specs.Walks.{inside, sees, sees_in};

use crate::lookup::TakenNames;
use swc_tree_scoping::{Scope, Standing, View, takes};

/// A scope that is open: its number from the front, and whether all its names are seen or only its parameters.
#[derive(Clone, Copy)]
pub struct Layer {
    pub scope: Scope,
    pub number: usize,
    pub whole: bool,
}

/// The open scopes, the innermost first.
#[derive(Clone, Copy)]
pub enum Env<'a> {
    Top,
    In(Layer, &'a Env<'a>),
}

/// What the parts of a node that opens a scope see.
#[derive(Clone, Copy)]
pub struct Inside<'a> {
    pub outside: &'a Env<'a>,
    pub parameters: Env<'a>,
    pub whole: Env<'a>,
}

impl<'a> Inside<'a> {
    /// Of a node whose scope has that number from the front.
    pub fn new(scope: Scope, number: usize, env: &'a Env<'a>) -> Inside<'a>
        ensures { (v : View') → sees_in result v ≡ inside scope number (layers env.now) v }
    {
        let layer = Layer {
            scope,
            number,
            whole: true,
        };
        let parameters = Layer {
            whole: false,
            ..layer
        };
        Inside {
            outside: env,
            parameters: Env::In(parameters, env),
            whole: Env::In(layer, env),
        }
    }
}

/// What the parts of a node see of the scopes round them. The scopes that it opens are lent, so that each frame of a walk
/// holds them once.
#[derive(Clone, Copy)]
pub enum Views<'a> {
    /// The node opens no scope, and each part sees what the node does.
    Plain(&'a Env<'a>),
    /// It opens one.
    Opened(&'a Inside<'a>),
}

impl<'a> Views<'a> {
    /// The environment of a part that sees so much.
    pub fn seen(self, view: View) -> &'a Env<'a>
        ensures { layers result.now ≡ sees self.entry view }
    {
        match self {
            Views::Plain(env) => env,
            Views::Opened(inside) => match view {
                View::Outside => inside.outside,
                View::Parameters => &inside.parameters,
                View::Whole => &inside.whole,
            },
        }
    }
}

/// The number of the innermost scope that takes what is bound so.
#[tactic(auto, using(crate::proofs::Open::layers_top, crate::proofs::Open::layers_in))]
pub fn taker(env: &Env, standing: Standing) -> Option<usize>
    ensures { result ≡ taker_in standing (layers env.now) }
{
    match env {
        Env::Top => None,
        Env::In(layer, outer) => {
            if takes(standing, layer.scope) {
                Some(layer.number)
            } else {
                taker(outer, standing)
            }
        }
    }
}

/// The number of the innermost function, static block or program.
pub fn variable_scope(env: &Env) -> Option<usize>
    ensures { result ≡ taker_in Standing.Variable (layers env.now) }
{
    taker(env, Standing::Variable)
}

/// Whether a `var` of the name could stand in the place of a function of the name in a block whose scopes outwards
/// these are: no lexical declaration, function or parameter meets it up to the nearest function, static block or
/// program.
#[tactic(auto, using(crate::proofs::Open::layers_top, crate::proofs::Open::layers_in))]
pub fn passes(env: &Env, bound: &TakenNames, name: &str) -> bool
    ensures { result ≡ passes_in (names_in bound.now) name.now (layers env.now) }
{
    match env {
        Env::Top => true,
        Env::In(layer, outer) => {
            if bound.ways(layer.number, name).stops() {
                false
            } else if takes(Standing::Variable, layer.scope) {
                true
            } else {
                passes(outer, bound, name)
            }
        }
    }
}

/// Whether the plain functions of the name in a block are declared outside of it; `outer` are the scopes round it.
pub fn hoists_from(layer: Layer, outer: &Env, bound: &TakenNames, name: &str) -> bool
    ensures { result ≡ hoists_from_in (names_in bound.now) name.now (open_of layer) (layers outer.now) }
{
    !bound.ways(layer.number, name).stops_in_block() && passes(outer, bound, name)
}

/// Whether the plain functions of the name in the innermost scope that takes them are declared outside of it
/// (ECMA-262, B.3.2).
#[tactic(auto, using(crate::proofs::Open::layers_top, crate::proofs::Open::layers_in))]
pub fn hoists(env: &Env, bound: &TakenNames, name: &str) -> bool
    ensures { result ≡ hoists_in (names_in bound.now) name.now (layers env.now) }
{
    match env {
        Env::Top => false,
        Env::In(layer, outer) => {
            if takes(Standing::SloppyFunction, layer.scope) {
                hoists_from(*layer, outer, bound, name)
            } else {
                hoists(outer, bound, name)
            }
        }
    }
}

/// The number of the innermost scope that is a catch clause whose parameter has the name, or that takes variables.
#[tactic(auto, using(crate::proofs::Open::layers_top, crate::proofs::Open::layers_in))]
pub fn meets(env: &Env, bound: &TakenNames, name: &str) -> Option<usize>
    ensures { result ≡ meets_in (names_in bound.now) name.now (layers env.now) }
{
    match env {
        Env::Top => None,
        Env::In(layer, outer) => {
            if takes(Standing::Variable, layer.scope)
                || bound.ways(layer.number, name).has(Standing::CatchParameter)
            {
                Some(layer.number)
            } else {
                meets(outer, bound, name)
            }
        }
    }
}
