//! Where the difference shows that a word tells of.
//!
//! Where just one node of each tree has the span of what shows it, that is the place; else copies of both trees are numbered.
ghost use Rattle.std.specs.Prelude.{◌≡◌, IfOk, IfSome};
ghost use Rattle.swc_base_alpha.specs.Verdict.{IsThere};

use crate::cause::names_shown;
use crate::only::{Sought, only_path};
use crate::own::resolved;
use crate::paths::{numbered, path_of};
use crate::shape::shape_apart;
use crate::spans::{NOWHERE, Spans, Unplaced};
use crate::verdict::{Cause, Difference, Why};
use std::alloc::{AllocError, Global};
use swc_base_normal_form::normal_form;
use swc_tree_marks::{NoMemory, Span};
use swc_tree_node::Node;
use swc_tree_walk::sites;

// A normal form, resolved. As many scopes had marks when the word was found, so memory was refused where it is refused.
fn resolved_again(alloc: Global, normal: Node) -> Result<Node, NoMemory> {
    match resolved(alloc, normal) {
        Ok(answer) => Ok(answer),
        Err(_) => Err(NoMemory),
    }
}

fn names_apart(alloc: Global, why: Why, first: Node, second: Node) -> Result<Spans, NoMemory> {
    let first = resolved_again(alloc, first)?;
    let second = resolved_again(alloc, second)?;
    let ones = sites(alloc, &first)?;
    let others = sites(alloc, &second)?;
    let (ones, others) = (ones.as_slice(), others.as_slice());
    Ok(names_shown(alloc, Unplaced::IsMade, why, ones, others)?)
}

// The numbers of the nodes at which it shows, as spans.
fn numbers_apart(alloc: Global, why: Why, before: &Node, after: &Node) -> Result<Spans, NoMemory> {
    let first = normal_form(alloc, numbered(before)?)?;
    let second = normal_form(alloc, numbered(after)?)?;
    match shape_apart(&first, &second, NOWHERE, Unplaced::IsMade) {
        Some(numbers) => Ok(numbers),
        None => names_apart(alloc, why, first, second),
    }
}

// The difference, by numbers in copies of both trees.
fn difference_by_numbers(
    alloc: Global,
    why: Why,
    before: &Node,
    after: &Node,
) -> Result<Difference, NoMemory>
    ensures why { IfOk result (λ d. d.why ≡ why) }
    ensures before { IfOk result (λ d. IsThere before.now d.before.items) }
    ensures after { IfOk result (λ d. IsThere after.now d.after.items) }
{
    let numbers = numbers_apart(alloc, why, before, after)?;
    Ok(Difference {
        why,
        before: path_of(alloc, before, numbers.before.lo)?,
        after: path_of(alloc, after, numbers.after.lo)?,
    })
}

// The path of what has a span, where nothing else has.
fn path_by_span(
    alloc: Global,
    why: Why,
    tree: &Node,
    span: Span,
) -> Result<Option<Vec<usize>>, AllocError>
    ensures { IfOk result (λ found. IfSome found (λ path. IsThere tree.now path.items)) }
{
    let is_name = why != Why::Shape;
    only_path(alloc, tree, Sought { span, is_name })
}

/// The difference between two programs, of which the cause was told, with where it shows.
///
/// # Errors
///
/// Where memory was refused.
pub fn difference(
    alloc: Global,
    cause: Cause,
    before: &Node,
    after: &Node,
) -> Result<Difference, NoMemory>
    ensures why { IfOk result (λ d. d.why ≡ cause.why) }
    ensures before { IfOk result (λ d. IsThere before.now d.before.items) }
    ensures after { IfOk result (λ d. IsThere after.now d.after.items) }
{
    let why = cause.why;
    let Some(first) = path_by_span(alloc, why, before, cause.before)? else {
        return difference_by_numbers(alloc, why, before, after);
    };
    let Some(second) = path_by_span(alloc, why, after, cause.after)? else {
        return difference_by_numbers(alloc, why, before, after);
    };
    Ok(Difference {
        why,
        before: first,
        after: second,
    })
}
