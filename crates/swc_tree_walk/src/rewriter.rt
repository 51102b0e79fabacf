//! Each node of a tree made anew.
ghost use Rattle.std.specs.Prelude.{◌≡◌, IfOk, IfErr};
ghost use Rattle.swc_tree_node.specs.declared.slot.Slot.{Slot};
ghost use Rattle.swc_tree_node.specs.Fits.{Fits};
ghost use Rattle.swc_tree_scoping.specs.Below.{places_of};
ghost use Rattle.swc_tree_scoping.specs.Folds.{each_in};
ghost use Rattle.swc_tree_scoping.specs.Places.{program_place};
ghost use Rattle.swc_tree_walk.specs.Rewritten.{rewritten};

use std::alloc::Global;
use swc_tree_items::Items;
use swc_tree_marks::PassError;
use swc_tree_node::Node;
use swc_tree_scoping::{PROGRAM_PLACE, Place, PlacesBelow, places_of_fields, places_of_items};

/// What is made of one node of a tree, once it is made of the node's children.
pub trait Rewriter {
    ghost use Rattle.std.specs.Prelude.{◌≡◌, IfOk, IfErr};
    ghost use Rattle.swc_tree_marks.specs.declared.error.PassError.{PassError};
    ghost use Rattle.swc_tree_node.specs.declared.node.Node.{Node};
    ghost use Rattle.swc_tree_node.specs.declared.slot.Slot.{Slot};
    ghost use Rattle.swc_tree_node.specs.Fits.{Fits};
    ghost use Rattle.swc_tree_scoping.specs.declared.places.Place.{Place};

    /// What it makes of a node in its place, whose children are made already.
    ghost made: { Self → Place → Node → Node };

    /// Why it is refused.
    ghost refuses: { Self → PassError → Type 0 };

    /// The node that stands in the place from now on.
    ///
    /// # Errors
    ///
    /// Those that `refuses` says. The node is then dropped.
    fn rewrite(&self, alloc: Global, place: Place, node: Node) -> Result<Node, PassError>
        ensures made { IfOk result (λ answer. answer ≡ made self.now place node) }
        ensures refused { IfErr result (refuses self.now) };

    /// What fits somewhere is made into what fits there.
    ghost keeps_fitting: { (rewriter : Self) (place : Place) (node : Node) (s : Slot) → Fits node s → Fits (made rewriter place node) s };
}

/// The program, each of whose nodes is made anew, from the leaves to the whole; each is shown the place that it had in the
/// program before.
///
/// It costs time in step with the size of the program, and takes no memory beside what the rewriter takes.
///
/// # Errors
///
/// Those of the rewriter. The program is then dropped.
pub fn rewrite<R: Rewriter>(alloc: Global, rewriter: &R, program: Node) -> Result<Node, PassError>
    ensures answer { IfOk result (λ answer. answer ≡ rewritten (R.made rewriter.now) program_place program) }
    ensures fits { (s : Slot) → Fits program s → IfOk result (λ answer. Fits answer s) }
    ensures refused { IfErr result (R.refuses rewriter.now) }
{
    rewrite_node(alloc, rewriter, PROGRAM_PLACE, program)
}

#[cycle(rewrite_node)]
fn rewrite_node<R: Rewriter>(
    alloc: Global,
    rewriter: &R,
    place: Place,
    node: Node,
) -> Result<Node, PassError>
    ensures answer { IfOk result (λ answer. answer ≡ rewritten (R.made rewriter.now) place node) }
    ensures refused { IfErr result (R.refuses rewriter.now) }
{
    match node {
        Node::List(items) => {
            let places = places_of_items(place);
            let items = rewrite_each(alloc, rewriter, places, items)?;
            rewriter.rewrite(alloc, place, Node::List(items))
        }
        Node::Tree(kind, fields) => {
            let places = places_of_fields(place, kind, fields.as_slice());
            let fields = rewrite_each(alloc, rewriter, places, fields)?;
            rewriter.rewrite(alloc, place, Node::Tree(kind, fields))
        }
        leaf => rewriter.rewrite(alloc, place, leaf),
    }
}

#[cycle(rewrite_node)]
fn rewrite_each<R: Rewriter>(
    alloc: Global,
    rewriter: &R,
    places: PlacesBelow,
    mut nodes: Items<Node>,
) -> Result<Items<Node>, PassError>
    ensures answer { IfOk result (λ answer. answer ≡ each_in (rewritten (R.made rewriter.now)) (places_of places nodes) nodes) }
    ensures refused { IfErr result (R.refuses rewriter.now) }
{
    for i in 0..nodes.len() {
        let node = nodes.replace(i, Node::Absent);
        let place = places.at(i, &node);
        let node = rewrite_node(alloc, rewriter, place, node)?;
        nodes.set(i, node);
    }
    Ok(nodes)
}
