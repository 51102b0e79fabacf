//! What a variable may not pass on its way out.
ghost use Rattle.std.specs.Prelude.{◌≡◌};
ghost use Rattle.swc_base_resolver_program.specs.Lookup.{layers, names_in};
ghost use Rattle.swc_base_resolver_program.specs.Names.{any_way};
ghost use Rattle.swc_base_scope_checks.specs.Barriers.{barred, gets_out as gets_out_of};

use swc_base_resolver_program::{Env, TakenNames};
use swc_tree_scoping::{Standing, takes};

/// The ways to take a name that keep a variable of the name from the function, static block or program that is to take it.
#[derive(Clone, Copy)]
pub enum Barrier {
    /// As a catch parameter, which B.3.4 lets pass.
    CatchParameter,
    /// As a lexical name, which is an early error (14.2.1, 14.3.1.1).
    Lexical,
}

impl Barrier {
    // Whether the scope of a number takes the name in such a way.
    fn bars(self, bound: &TakenNames, number: usize, name: &str) -> bool
        ensures { result ≡ any_way (barred self) (names_in bound.now number name.now) }
    {
        let ways = bound.ways(number, name);
        match self {
            Barrier::CatchParameter => ways.has(Standing::CatchParameter),
            Barrier::Lexical => {
                ways.has(Standing::Lexical)
                    || ways.has(Standing::BlockFunction)
                    || ways.has(Standing::SloppyFunction)
                    || ways.has(Standing::CatchParameter)
                    || ways.has(Standing::Import)
            }
        }
    }
}

/// Whether none of the scopes up to the nearest function, static block or program bars a variable of the name.
#[tactic(auto, using(swc_base_resolver_program::proofs::Open::layers_top, swc_base_resolver_program::proofs::Open::layers_in))]
pub fn gets_out(env: &Env, barrier: Barrier, bound: &TakenNames, name: &str) -> bool
    ensures { result ≡ gets_out_of (barred barrier) (names_in bound.now) name.now (layers env.now) }
{
    match env {
        Env::Top => true,
        Env::In(layer, outer) => {
            if takes(Standing::Variable, layer.scope) {
                true
            } else if barrier.bars(bound, layer.number, name) {
                false
            } else {
                gets_out(outer, barrier, bound, name)
            }
        }
    }
}
