//! The walk that writes a tree out.
ghost use Rattle.std.specs.Prelude.{◌≡◌, IfOk, OnOk, map};
ghost use Rattle.swc_tree_grammar.specs.Normal.{normal_form as is_normal_form, written_out};

use crate::forms::{is_shorthand, write_fields};
use crate::patterns::pattern_property;
use std::alloc::Global;
use std::mem;
use swc_base_fixer_unparen::strip;
use swc_tree_items::Items;
use swc_tree_marks::NoMemory;
use swc_tree_node::Node;

/// The normal form of a tree. Two programs that are written differently have one normal form where nothing but parentheses,
/// blocks, shorthands and export lists tells them apart.
///
/// It goes through the tree twice, in place; only the lists of sequences and of the items of modules are made anew, and what
/// is written out.
///
/// # Errors
///
/// `NoMemory` where memory is refused.
///
/// # Cost
///
/// Time in step with the size of the tree and of its normal form, but for the logarithm of how many names one exported
/// declaration has, and as `strip` costs for items of sequences under `void`.
pub fn normal_form(alloc: Global, node: Node) -> Result<Node, NoMemory>
    ensures { IfOk result (λ t. t ≡ is_normal_form node) }
{
    let mut node = strip(alloc, node)?;
    write_out(alloc, &mut node)?;
    Ok(node)
}

// Writes a node out, once all below it is.
#[cycle(write_out)]
fn write_out(alloc: Global, node: &mut Node) -> Result<(), NoMemory>
    ensures { OnOk result (node.new ≡ written_out node.old) }
{
    let kind = node.kind();
    let Some(children) = node.children_mut() else {
        return Ok(());
    };
    write_out_all(alloc, children)?;
    let Some(kind) = kind else {
        return Ok(());
    };
    if is_shorthand(kind, children.as_slice()) {
        let fields = mem::replace(children, Items::new(alloc));
        *node = pattern_property(alloc, fields)?;
        return Ok(());
    }
    write_fields(alloc, kind, children)
}

#[cycle(write_out)]
fn write_out_all(alloc: Global, items: &mut Items<Node>) -> Result<(), NoMemory>
    ensures { OnOk result (items.new ≡ map written_out items.old) }
{
    for i in 0..items.len() {
        if items.as_slice()[i].has_parts() {
            write_out(alloc, items.item_mut(i))?;
        }
    }
    Ok(())
}
