//! Paths by the numbers of children.
ghost use Rattle.std.specs.Prelude.{◌≡◌, IfOk, option_map};
ghost use Rattle.std.specs.List.{slice_get};
ghost use Rattle.swc_tree_node.specs.declared.node.Node.{out-Node};
ghost use Rattle.swc_tree_node.specs.Table.{fields_of as fields_in};
ghost use Rattle.jsbase_form.specs.ByNumbers.{led_by, part_in, part_of_field, parts_to};
ghost use Rattle.jsbase_form.specs.Steps.{part_of};

use crate::path::{FaultPath, Step};
use std::alloc::{AllocError, Global};
use swc_tree_node::{Kind, Node, fields_of};

// The step to the field of a number.
fn step_to_field(kind: Kind, number: usize) -> Step
    ensures { part_of result ≡ part_of_field (slice_get (fields_in kind) number) number }
{
    match fields_of(kind).get(number) {
        Some(field) => Step::Key(field.key),
        None => Step::Index(number),
    }
}

// The step to the child of a number.
fn step_to(node: &Node, number: usize) -> Step
    ensures { part_of result ≡ part_in (out-Node node.now) number }
{
    match node {
        Node::Tree(kind, _) => step_to_field(*kind, number),
        _ => Step::Index(number),
    }
}

/// The way that numbers of children lead from a node, as far as children stand there.
///
/// # Errors
///
/// `AllocError` where memory is refused.
#[cycle(path_to)]
pub fn path_to(alloc: Global, node: &Node, numbers: &[usize]) -> Result<FaultPath, AllocError>
    ensures { IfOk result (λ path. path ≡ parts_to node.now numbers.now) }
{
    let [number, rest @ ..] = numbers else {
        return Ok(FaultPath::here(alloc));
    };
    let mut path = path_below(alloc, node.children().get(*number), rest)?;
    path.push_outer(step_to(node, *number))?;
    Ok(path)
}

// The same from a child that may not stand there.
#[cycle(path_to)]
fn path_below(
    alloc: Global,
    node: Option<&Node>,
    numbers: &[usize],
) -> Result<FaultPath, AllocError>
    ensures { IfOk result (λ path. path ≡ led_by (option_map (λ t. t.now) node.entry) (λ c. parts_to c numbers.now)) }
{
    match node {
        Some(node) => path_to(alloc, node, numbers),
        None => Ok(FaultPath::here(alloc)),
    }
}
