//! Names that are claimed in scopes, and whether one is claimed twice against the rules.
ghost use Rattle.std.specs.Prelude.{◌≡◌, ◌<◌, ℕ, List, length, None, Some, IfOk, OnOk, if◌then◌else◌};
ghost use Rattle.std.specs.BTreeMap.{get_by_text};
ghost use Rattle.std.specs.Str.{bytes_eq};
ghost use Rattle.swc_tree_scoping.specs.Declares.{is_lexical as names_lexical};
ghost use Rattle.swc_base_resolver_program.specs.Lookup.{layers};
ghost use Rattle.swc_base_early_errors.specs.Claims.{GivenClaim, Notes, OneClaim, Walked, claim_in, is_alone, is_of, note_in};

use std::alloc::{AllocError, Global};
use std::collections::BTreeMap;
use swc_base_resolver_program::{Env, taker};
use swc_tree_scoping::{Place, Standing};

/// Which names may not be claimed twice.
#[derive(Clone, Copy)]
pub enum Rule {
    /// Lexical names, by all other bindings of the scope (ECMA-262, 14.2.1, 16.1.1, 16.2.1.1); of a module also the functions of
    /// the program: whether it is one.
    Lexical(bool),
    /// The parameters of a function (15.1.1).
    Parameters,
}

/// A claim of a name: in the scope of which number, and whether it suffers no other.
#[derive(Clone, Copy)]
pub struct Claim {
    pub scope: usize,
    pub alone: bool,
}

impl Rule {
    /// The claim of an identifier, if it has one.
    pub fn claim(self, place: Place, env: &Env) -> Option<Claim>
        ensures { result ≡ claim_in self place (layers env.now) }
    {
        if !self.is_of(place.standing) {
            return None;
        }
        match taker(env, place.standing) {
            Some(scope) => {
                let alone = self.is_alone(place.standing, scope);
                Some(Claim { scope, alone })
            }
            None => None,
        }
    }

    // Whether the rule is of names that stand so.
    fn is_of(self, standing: Standing) -> bool
        ensures { result ≡ is_of self standing }
    {
        match self {
            Rule::Lexical(_) => true,
            Rule::Parameters => matches!(standing, Standing::Parameter),
        }
    }

    // Whether what stands so suffers no other of its name in that scope.
    fn is_alone(self, standing: Standing, scope: usize) -> bool
        ensures { result ≡ is_alone self standing scope }
    {
        match self {
            Rule::Lexical(in_module) => {
                is_lexical(standing)
                    || in_module && matches!(standing, Standing::Function) && scope == 0
            }
            Rule::Parameters => true,
        }
    }
}

fn is_lexical(standing: Standing) -> bool
    ensures { result ≡ names_lexical standing }
{
    matches!(
        standing,
        Standing::Lexical
            | Standing::Import
            | Standing::CatchParameter
            | Standing::BlockFunction
            | Standing::SloppyFunction
    )
}

/// The names that are claimed in a scope, each with whether its claim suffers no other. A look-up costs the logarithm of how many
/// there are, whatever the names.
#[derive(Drop)]
pub struct ClaimedNames {
    names: BTreeMap<String, bool>,
}

impl ClaimedNames {
    /// Those of a scope in which none is.
    pub fn new(alloc: Global) -> ClaimedNames
        ensures { (x : List ℕ) → get_by_text result.names x ≡ None }
    {
        ClaimedNames {
            names: BTreeMap::new(alloc),
        }
    }

    /// Whether the claim of a name suffers no other, if the name is claimed.
    pub fn get(&self, name: &str) -> Option<bool>
        ensures { result ≡ get_by_text self.now.names name.now }
    {
        match self.names.get(name) {
            Some(alone) => Some(*alone),
            None => None,
        }
    }

    /// Notes the claim of a name.
    pub fn insert(&mut self, alloc: Global, name: &str, alone: bool) -> Result<(), AllocError>
        ensures { OnOk result ((x : List ℕ) → get_by_text self.new.names x ≡ (if bytes_eq name.now x then Some alone else get_by_text self.old.names x)) }
    {
        let copy = String::from_str(alloc, name)?;
        self.names.insert(copy, alone)?;
        Ok(())
    }
}

// What is noted of a name in a scope.
fn noted(tables: &[ClaimedNames], number: usize, name: &str) -> Option<bool>
    ensures { result ≡ note_in tables.now number name.now }
{
    match tables.get(number) {
        Some(names) => names.get(name),
        None => None,
    }
}

// Notes a claim of a name of which nothing is noted.
fn note(
    alloc: Global,
    tables: &mut Vec<ClaimedNames>,
    claim: Claim,
    name: &str,
) -> Result<(), AllocError>
    requires within { claim.scope < length tables.old.items }
    requires free { note_in tables.old.items claim.scope name.now ≡ None }
    ensures size { OnOk result (length tables.new.items ≡ length tables.old.items) }
    ensures notes { OnOk result (Notes tables.old.items tables.new.items (OneClaim claim name.now)) }
{
    match tables.get_mut(claim.scope) {
        Some(names) => names.insert(alloc, name, claim.alone),
        None => Ok(()),
    }
}

/// Notes the claim of a name, if there is one; gives whether it clashes with what is noted.
pub fn clashes(
    alloc: Global,
    tables: &mut Vec<ClaimedNames>,
    claim: Option<Claim>,
    name: &str,
) -> Result<bool, AllocError>
    requires { (c : Claim) → claim ≡ Some c → c.scope < length tables.old.items }
    ensures { IfOk result (λ clash. Walked clash tables.old.items tables.new.items 0 (GivenClaim claim name.now)) }
{
    let Some(claim) = claim else {
        return Ok(false);
    };
    match noted(tables.as_slice(), claim.scope, name) {
        Some(alone) => Ok(alone || claim.alone),
        None => {
            note(alloc, tables, claim, name)?;
            Ok(false)
        }
    }
}
