//! Whether names that have one id in one list have one in another beside it.
ghost use Rattle.std.specs.Prelude.{◌≡◌, ◌↔◌, IsTrue, None, IfOk, MatchOption, OnOk, length};
ghost use Rattle.swc_tree_renaming.specs.Apart.{SameId};
ghost use Rattle.swc_tree_walk.specs.Sites.{site_of};
ghost use Rattle.swc_base_alpha.specs.Pairs.{StaysOne, pairs};
ghost use Rattle.swc_base_alpha.specs.Partners.{Agrees, Id, table_of, with_pair};
ghost use Rattle.swc_base_alpha.specs.Shown.{FailsAt, PairsAsk};
ghost use Rattle.swc_base_alpha.specs.declared.verdict.Why.TheVariants as why;

use crate::pairs::{Found, is_name};
use std::alloc::{AllocError, Global};
use std::collections::BTreeMap;
use swc_tree_marks::{Ident, JsWord, SyntaxContext};
use swc_tree_walk::Site;

// An id: few names have one context, so it is compared first.
type Key<'a> = (&'a SyntaxContext, &'a JsWord);

/// Of each id that was seen, what stands beside the first name that has it.
#[derive(Drop)]
pub struct Partners<'a> {
    by_id: BTreeMap<Key<'a>, &'a Ident>,
}

fn same_id(one: &Ident, other: &Ident) -> bool
    ensures { IsTrue result ↔ SameId one.now other.now }
{
    one.sym == other.sym && one.ctxt == other.ctxt
}

fn key_of<'a>(ident: &'a Ident) -> Key<'a>
    ensures context { result.0.now ≡ ident.now.ctxt }
    ensures text { result.1.now ≡ ident.now.sym }
{
    (&ident.ctxt, &ident.sym)
}

impl<'a> Partners<'a> {
    // None are known.
    fn new(alloc: Global) -> Partners<'a>
        ensures { (x : Id) → table_of result x ≡ None }
    {
        Partners {
            by_id: BTreeMap::new(alloc),
        }
    }

    // Whether what stands beside one another agrees with what was seen before: a name whose id has a partner stands beside one
    // that has the partner's id. If it has none, it has one then.
    fn see(&mut self, one: &Site<'a>, other: &Site<'a>) -> Result<bool, AllocError>
        ensures agrees { IfOk result (λ agrees. IsTrue agrees ↔ Agrees (table_of self.old) (site_of one.now) (site_of other.now)) }
        ensures next { OnOk result ((x : Id) → table_of self.new x ≡ with_pair (table_of self.old) (site_of one.now) (site_of other.now) x) }
    {
        if !is_name(one) {
            return Ok(true);
        }
        let key = key_of(one.ident);
        match self.by_id.get(&key) {
            Some(partner) => Ok(same_id(partner, other.ident)),
            None => {
                self.by_id.insert(key, other.ident)?;
                Ok(true)
            }
        }
    }
}

/// The first name that stands beside one with another id than an earlier name of its own id does, with that, if there is such.
///
/// It costs the logarithm of how many ids there are, for each name.
///
/// # Errors
///
/// Where memory was refused.
pub fn first_split<'a>(
    alloc: Global,
    ones: &[Site<'a>],
    others: &[Site<'a>],
) -> Result<Found<'a>, AllocError>
    requires { length ones.now ≡ length others.now }
    ensures { IfOk result (λ found. MatchOption found (StaysOne (pairs ones.now others.now)) (λ f. FailsAt StaysOne (pairs ones.now others.now) (site_of f.0) (site_of f.1) × ¬ StaysOne (pairs ones.now others.now))) }
{
    let mut partners = Partners::new(alloc);
    for i in 0..ones.len() {
        let one = ones[i];
        let other = others[i];
        let agree = partners.see(&one, &other)?;
        if !agree {
            return Ok(Some((one, other)));
        }
    }
    Ok(None)
}

/// The first name that has another id than one that stands beside it, of which an earlier had the id.
///
/// # Errors
///
/// Where memory was refused.
pub fn first_joined<'a>(
    alloc: Global,
    ones: &[Site<'a>],
    others: &[Site<'a>],
) -> Result<Found<'a>, AllocError>
    requires { length ones.now ≡ length others.now }
    ensures { IfOk result (λ found. MatchOption found (PairsAsk why.Joined (pairs ones.now others.now)) (λ f. FailsAt (PairsAsk why.Joined) (pairs ones.now others.now) (site_of f.0) (site_of f.1))) }
{
    match first_split(alloc, others, ones)? {
        Some((other, one)) => Ok(Some((one, other))),
        None => Ok(None),
    }
}

/// Whether names that have one id in the first list stand beside names that have one id in the second.
///
/// # Errors
///
/// Where memory was refused.
pub fn stays_one<'a>(
    alloc: Global,
    ones: &[Site<'a>],
    others: &[Site<'a>],
) -> Result<bool, AllocError>
    requires { length ones.now ≡ length others.now }
    ensures { IfOk result (λ stays. IsTrue stays ↔ StaysOne (pairs ones.now others.now)) }
{
    match first_split(alloc, ones, others)? {
        None => Ok(true),
        Some(_) => Ok(false),
    }
}
