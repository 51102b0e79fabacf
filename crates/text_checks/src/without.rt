//! What stands in a tree held against the table, and looked through, in one walk.
ghost use Rattle.std.specs.Prelude.{◌≡◌, IsTrue, map};
ghost use Rattle.swc_tree_node.specs.Fits as spec;
ghost use Rattle.swc_tree_node.specs.Fits.{Fits};
ghost use Rattle.swc_tree_node.specs.Table.{slots_of};
ghost use Rattle.swc_tree_walk.specs.Nodes.{AnyHasNode, HasNode};

use crate::table::{belongs, fits, list_fits, single, slot_at};
use swc_tree_node::{Content, Field, Kind, Node, Slot, fields_of, is_identifier};
use swc_tree_walk::{Finder, any_has_node};

/// Whether a node may stand in a place, and all that is below it, each in its own; and none of them is one that is looked for.
///
/// It takes no memory, and looks at each node once: a tree is larger than a processor's caches, so that each walk fetches it anew.
#[cycle(fits_without)]
pub fn fits_without<F: Finder>(finder: &F, node: &Node, slot: Slot) -> bool
    ensures fits { IsTrue result → Fits node.now slot }
    ensures none { IsTrue result → HasNode (F.is_sought finder.now) node.now → ⊥ }
{
    if finder.is_sought(node) {
        return false;
    }
    match node {
        Node::List(items) => list_fits_without(finder, items.as_slice(), slot),
        Node::Tree(kind, fields) => {
            tree_fits_without(finder, *kind, fields.as_slice(), single(slot))
        }
        _ => fits(node, slot),
    }
}

#[cycle(fits_without)]
fn all_fit_without<F: Finder>(finder: &F, nodes: &[Node], slot: Slot) -> bool
    ensures fits { IsTrue result → IsTrue (spec.all_fit (map spec.fits nodes.now) slot) }
    ensures none { IsTrue result → AnyHasNode (F.is_sought finder.now) nodes.now → ⊥ }
{
    for i in 0..nodes.len() {
        if !fits_without(finder, &nodes[i], slot) {
            return false;
        }
    }
    true
}

#[cycle(fits_without)]
fn list_fits_without<F: Finder>(finder: &F, nodes: &[Node], slot: Slot) -> bool
    ensures fits { IsTrue result → IsTrue (spec.list_fits (map spec.fits nodes.now) slot) }
    ensures none { IsTrue result → AnyHasNode (F.is_sought finder.now) nodes.now → ⊥ }
{
    match slot {
        Slot::List(content) => all_fit_without(finder, nodes, Slot::One(content)),
        Slot::OptionalList(content) => all_fit_without(finder, nodes, Slot::One(content)),
        Slot::Holes(content) => all_fit_without(finder, nodes, Slot::Optional(content)),
        _ => {
            if any_has_node(finder, nodes) {
                return false;
            }
            list_fits(nodes, slot)
        }
    }
}

#[cycle(fits_without)]
fn tree_fits_without<F: Finder>(
    finder: &F,
    kind: Kind,
    fields: &[Node],
    content: Option<Content>,
) -> bool
    ensures fits { IsTrue result → IsTrue (spec.tree_fits kind (map spec.fits fields.now) content) }
    ensures none { IsTrue result → AnyHasNode (F.is_sought finder.now) fields.now → ⊥ }
{
    match content {
        Some(Content::Node(class)) => {
            if is_identifier(kind) {
                return false;
            }
            if !belongs(kind, class) {
                return false;
            }
            fields_fit_without(finder, kind, fields)
        }
        _ => false,
    }
}

#[cycle(fits_without)]
fn fields_fit_without<F: Finder>(finder: &F, kind: Kind, fields: &[Node]) -> bool
    ensures fits { IsTrue result → IsTrue (spec.each_fits (slots_of kind) (map spec.fits fields.now)) }
    ensures none { IsTrue result → AnyHasNode (F.is_sought finder.now) fields.now → ⊥ }
{
    each_fits_without(finder, fields_of(kind), fields)
}

#[cycle(fits_without)]
fn each_fits_without<F: Finder>(finder: &F, places: &[Field], fields: &[Node]) -> bool
    ensures fits { IsTrue result → IsTrue (spec.each_fits (map (λ place. place.slot) places.now) (map spec.fits fields.now)) }
    ensures none { IsTrue result → AnyHasNode (F.is_sought finder.now) fields.now → ⊥ }
{
    if places.len() != fields.len() {
        return false;
    }
    for i in 0..fields.len() {
        if !fits_without(finder, &fields[i], slot_at(places, i)) {
            return false;
        }
    }
    true
}
