//! The first word that two lists of identifiers call for.
ghost use Rattle.std.specs.Prelude.{◌≡◌, [], ◌∷◌, IfOk, length, map};
ghost use Rattle.swc_tree_walk.specs.Sites.{site_of};
ghost use Rattle.swc_base_alpha.specs.Judged.{Decides};
ghost use Rattle.swc_base_alpha.specs.Pairs.{ListAsks};
ghost use Rattle.swc_base_alpha.specs.Verdict.{words};
ghost use Rattle.swc_base_alpha.specs.declared.verdict.Why.TheVariants as why;

use crate::pairs::{Question, each_pair};
use crate::partners::stays_one;
use crate::verdict::Why;
use std::alloc::{AllocError, Global};
use swc_tree_walk::Site;

/// What is asked of two programs beside what their trees show.
#[derive(Clone, Copy)]
pub struct Rules {
    /// That names of the program's own scope keep their texts.
    pub keep_top: bool,
    /// Whether a direct `eval` or a `with` stands in one of both.
    pub reads: bool,
    /// Whether a `var` or a function meets a catch parameter of its name in one of both.
    pub caught: bool,
}

// The first difference in what names stand for, by their ids.
fn ids_differ<'a>(
    alloc: Global,
    rules: Rules,
    ones: &[Site<'a>],
    others: &[Site<'a>],
) -> Result<Option<Why>, AllocError>
    requires { length ones.now ≡ length others.now }
    ensures { IfOk result (Decides (ListAsks rules (map site_of ones.now) (map site_of others.now)) (why.Free ∷ why.Split ∷ why.Joined ∷ why.Top ∷ [])) }
{
    if rules.caught {
        return Ok(None);
    }
    if !each_pair(Question::Free, ones, others) {
        return Ok(Some(Why::Free));
    }
    if !stays_one(alloc, ones, others)? {
        return Ok(Some(Why::Split));
    }
    if !stays_one(alloc, others, ones)? {
        return Ok(Some(Why::Joined));
    }
    if !rules.keep_top {
        return Ok(None);
    }
    if each_pair(Question::Top, ones, others) {
        return Ok(None);
    }
    Ok(Some(Why::Top))
}

// Why names may not have other texts, if any has one.
fn texts_differ(rules: Rules, ones: &[Site<'_>], others: &[Site<'_>]) -> Option<Why>
    requires { length ones.now ≡ length others.now }
    ensures { Decides (ListAsks rules (map site_of ones.now) (map site_of others.now)) (why.Reads ∷ why.Caught ∷ []) result }
{
    if each_pair(Question::Names, ones, others) {
        return None;
    }
    if rules.reads {
        return Some(Why::Reads);
    }
    if rules.caught {
        return Some(Why::Caught);
    }
    None
}

/// The first word that the identifiers of two trees of one outline call for, if any.
///
/// # Errors
///
/// Where memory was refused.
pub fn sites_differ<'a>(
    alloc: Global,
    rules: Rules,
    ones: &[Site<'a>],
    others: &[Site<'a>],
) -> Result<Option<Why>, AllocError>
    requires { length ones.now ≡ length others.now }
    ensures { IfOk result (Decides (ListAsks rules (map site_of ones.now) (map site_of others.now)) words) }
{
    if !each_pair(Question::Others, ones, others) {
        return Ok(Some(Why::Name));
    }
    let found = ids_differ(alloc, rules, ones, others)?;
    match found {
        Some(why) => Ok(Some(why)),
        None => Ok(texts_differ(rules, ones, others)),
    }
}
