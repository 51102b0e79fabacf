//! Signs that stand behind the names of a tree.
ghost use Rattle.std.specs.Prelude.{◌≡◌, ◌<◌, Contains, IfOk, IsTrue, OnOk, map};
ghost use Rattle.std.specs.List.{All};
ghost use Rattle.std.specs.List.Sorted.{IsPermutation};
ghost use Rattle.swc_tree_walk.specs.Sites.{site_of};
ghost use Rattle.mucwathi_looks.specs.Given.{Rise, end_of, ends};

use mucwathi_signs::Sign;
use std::alloc::{AllocError, Global};
use swc_tree_node::Node;
use swc_tree_walk::{Site, sites};

// The places behind identifiers, one after another.
fn ends_among(alloc: Global, found: &[Site<'_>]) -> Result<Vec<usize>, AllocError>
    ensures { IfOk result (λ places. places.items ≡ map end_of (map site_of found.now)) }
{
    let mut places = Vec::new(alloc);
    'sites: for i in 0..found.len() {
        places.push(found[i].ident.span.hi.saturating_sub(1) as usize)?;
    }
    Ok(places)
}

fn ordered(mut places: Vec<usize>) -> Result<Vec<usize>, AllocError>
    ensures { IfOk result (λ sorted. IsPermutation places.items sorted.items) }
{
    places.sort()?;
    Ok(places)
}

/// The places behind the identifiers of a tree, in order.
pub(crate) fn ends_of(alloc: Global, tree: &Node) -> Result<Vec<usize>, AllocError>
    ensures { IfOk result (λ places. IsPermutation (ends tree.now) places.items) }
{
    let found = sites(alloc, tree)?;
    let places = ends_among(alloc, found.as_slice())?;
    ordered(places)
}

fn is_listed(places: &[usize], place: usize) -> bool
    ensures { IsTrue result → Contains places.now place }
{
    places.binary_search(&place).is_ok()
}

/// Whether each sign stands at one of some places.
pub(crate) fn are_behind(places: &[usize], signs: &[Sign]) -> bool
    ensures { IsTrue result → All (λ s. Contains places.now s.at) signs.now }
{
    'signs: for i in 0..signs.len() {
        if !is_listed(places, signs[i].at) {
            return false;
        }
    }
    true
}

fn is_before(one: usize, other: usize) -> bool
    ensures { IsTrue result → one < other }
{
    one < other
}

/// Whether signs are in the order of the text, no two at one place.
pub(crate) fn rise(signs: &[Sign]) -> bool
    ensures { IsTrue result → Rise signs.now }
{
    'signs: for i in 1..signs.len() {
        if !is_before(signs[i - 1].at, signs[i].at) {
            return false;
        }
    }
    true
}
