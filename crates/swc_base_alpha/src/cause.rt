//! Why two normal forms are not the same, and the spans of what shows it.
ghost use Rattle.std.specs.Prelude.{◌≡◌, IfOk, IfSome, MatchOption, length, map};
ghost use Rattle.swc_tree_walk.specs.Sites.{site_of};
ghost use Rattle.swc_base_alpha.specs.Pairs.{pairs};
ghost use Rattle.swc_base_rename_laws.specs.NewNames.{outline};
ghost use Rattle.swc_base_alpha.specs.Shown.{FailsAt, PairsAsk, Shows, ShowsIn};
ghost use Rattle.swc_base_alpha.specs.Verdict.{word_in};

use crate::pairs::{Found, Question, first_apart};
use crate::partners::{first_joined, first_split};
use crate::places::place_in;
use crate::shape::shape_apart;
use crate::spans::{NOWHERE, Spans, Unplaced};
use crate::verdict::{Cause, Why};
use std::alloc::{AllocError, Global};
use swc_tree_node::Node;
use swc_tree_walk::Site;

// The identifiers at which a word shows.
fn shown_at<'a>(
    alloc: Global,
    why: Why,
    ones: &[Site<'a>],
    others: &[Site<'a>],
) -> Result<Found<'a>, AllocError>
    requires { length ones.now ≡ length others.now }
    ensures { IfOk result (λ found. MatchOption found (PairsAsk why (pairs ones.now others.now)) (λ f. FailsAt (PairsAsk why) (pairs ones.now others.now) (site_of f.0) (site_of f.1))) }
{
    match why {
        Why::Shape => Ok(None),
        Why::Name => Ok(first_apart(Question::Others, ones, others)),
        Why::Free => Ok(first_apart(Question::Free, ones, others)),
        Why::Split => first_split(alloc, ones, others),
        Why::Joined => first_joined(alloc, ones, others),
        Why::Top => Ok(first_apart(Question::Top, ones, others)),
        Why::Reads | Why::Caught => Ok(first_apart(Question::Names, ones, others)),
    }
}

/// The spans of the identifiers at which a word shows: `unplaced` says what it means that one has none.
///
/// # Errors
///
/// Where memory was refused.
pub fn names_shown<'a>(
    alloc: Global,
    unplaced: Unplaced,
    why: Why,
    ones: &[Site<'a>],
    others: &[Site<'a>],
) -> Result<Spans, AllocError>
    ensures { length ones.now ≡ length others.now → ¬ PairsAsk why (pairs ones.now others.now) → IfOk result (λ spans. ShowsIn unplaced why (map site_of ones.now) (map site_of others.now) spans.before spans.after) }
{
    if ones.len() != others.len() {
        return Ok(NOWHERE);
    }
    match shown_at(alloc, why, ones, others)? {
        Some((one, other)) => Ok(Spans {
            before: place_in(&one, ones, unplaced),
            after: place_in(&other, others, unplaced),
        }),
        None => Ok(NOWHERE),
    }
}

/// A word that two lists of identifiers call for, if any, with what shows it.
///
/// # Errors
///
/// Where memory was refused.
pub fn cause_among<'a>(
    alloc: Global,
    unplaced: Unplaced,
    found: Option<Why>,
    ones: &[Site<'a>],
    others: &[Site<'a>],
) -> Result<Option<Cause>, AllocError>
    ensures word { IfOk result (λ cause. word_in cause ≡ found) }
    ensures shown { length ones.now ≡ length others.now → IfSome found (λ w. ¬ PairsAsk w (pairs ones.now others.now)) → IfOk result (λ cause. IfSome cause (λ c. ShowsIn unplaced c.why (map site_of ones.now) (map site_of others.now) c.before c.after)) }
{
    let Some(why) = found else {
        return Ok(None);
    };
    let Spans { before, after } = names_shown(alloc, unplaced, why, ones, others)?;
    Ok(Some(Cause { why, before, after }))
}

// That two normal forms have other outlines, and where it shows.
fn shape_at(spans: Spans) -> Cause
    ensures why { result.why ≡ Why.Shape }
    ensures before { result.before ≡ spans.before }
    ensures after { result.after ≡ spans.after }
{
    Cause {
        why: Why::Shape,
        before: spans.before,
        after: spans.after,
    }
}

/// That two normal forms have other outlines, with what shows it.
pub fn cause_of_shape(unplaced: Unplaced, first: &Node, second: &Node) -> Cause
    ensures why { result.why ≡ Why.Shape }
    ensures shows { ¬ (outline first.now ≡ outline second.now) → Shows unplaced first.now second.now result.why result.before result.after }
{
    match shape_apart(first, second, NOWHERE, unplaced) {
        Some(spans) => shape_at(spans),
        None => shape_at(NOWHERE),
    }
}
