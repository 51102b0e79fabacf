//! How each of the three steps goes through a tree.
ghost use Rattle.std.specs.Prelude.{◌≡◌, OnOk, IfOk};
ghost use Rattle.swc_base_fixer_due.specs.Record.{place_in};
ghost use Rattle.swc_base_fixer_due.specs.Walk.{each_told};

use crate::pair::pair_where;
use crate::record::Record;
use std::alloc::{AllocError, Global};
use swc_tree_items::Items;
use swc_tree_node::{Kind, Node};

/// What a step makes of one node. A node is told one flag by the one above it, and by that flag and what it is, it
/// tells one to each node right below it.
pub trait Pairing: Copy {
    ghost use Rattle.std.specs.Prelude.{◌≡◌, ℕ, Bool, false, List, OnOk};
    ghost use Rattle.swc_tree_node.specs.declared.kind.Kind.{Kind};
    ghost use Rattle.swc_tree_node.specs.declared.node.Node.{Node, List as Many, Tree};
    ghost use Rattle.swc_tree_node.specs.Parts.{has_parts};
    ghost use Rattle.swc_tree_grammar.specs.Due.{Places, pair_if};
    ghost use Rattle.swc_base_fixer_due.specs.Record.{place_in};
    ghost use Rattle.swc_base_fixer_due.specs.Walk.{each_told};

    /// The node with its pairs, which is told a flag.
    ghost paired: { Places → Node → Bool → Node };

    /// A list that is told a flag.
    ghost in_list: { Bool → Self };

    /// A tree that is told a flag, as it is before the nodes below it have their pairs.
    ghost in_tree: { Bool → Kind → List Node → Self };

    /// What the node below it at an index is told.
    ghost tells: { Self → ℕ → Bool };

    /// A tree whose fields have their pairs, with those that are due by what they became.
    ghost settled: { Places → Self → Kind → List Node → Node };

    /// Whether a pair is due round the tree itself.
    ghost is_due: { Self → Bool };

    /// A list that is told a flag.
    fn of_list(told: bool) -> Self
        ensures { result ≡ in_list told };

    /// A tree that is told a flag, before the nodes below it have their pairs.
    fn of_tree(told: bool, kind: Kind, fields: &[Node]) -> Self
        ensures { result ≡ in_tree told kind fields.now };

    /// What the node right below it at an index is told.
    fn tells(self, index: usize) -> bool
        ensures { result ≡ tells self index };

    /// Sets the pairs that are due in fields that have their own.
    fn settle(
        self,
        alloc: Global,
        recorded: &Record,
        kind: Kind,
        fields: &mut Items<Node>,
    ) -> Result<(), AllocError>
        ensures { OnOk result (Tree kind fields.new ≡ settled (place_in recorded.now) self kind fields.old) };

    /// Whether a pair is due round the tree itself.
    fn is_due(self) -> bool
        ensures { result ≡ is_due self };

    /// A list has its pairs once its items have.
    ghost list_paired: { (p : Places) (b : Bool) (ts : List Node) → Many (each_told (paired p) (tells (in_list b)) ts) ≡ paired p (Many ts) b };

    /// A tree has its pairs once its fields have, what they became is settled, and it has its own.
    ghost tree_paired: { (p : Places) (b : Bool) (k : Kind) (ts : List Node) → pair_if (is_due (in_tree b k ts)) p (settled p (in_tree b k ts) k (each_told (paired p) (tells (in_tree b k ts)) ts)) ≡ paired p (Tree k ts) b };

    /// A node with nothing below it stays.
    ghost stays: { (p : Places) (b : Bool) (t : Node) → has_parts t ≡ false → paired p t b ≡ t };
}

/// The tree with the pairs of a step; its root is told a flag.
///
/// It goes through the tree once, in place.
pub fn pair_tree<P: Pairing>(
    alloc: Global,
    recorded: &Record,
    told: bool,
    node: Node,
) -> Result<Node, AllocError>
    ensures { IfOk result (λ t. t ≡ P.paired (place_in recorded.now) node told) }
{
    let mut node = node;
    pair_node::<P>(alloc, recorded, told, &mut node)?;
    Ok(node)
}

// It goes into the loop below, which has just asked for parts: so that is asked once, and a level of the tree takes one call.
#[cycle(pair_node)]
#[inline(always)]
fn pair_node<P: Pairing>(
    alloc: Global,
    recorded: &Record,
    told: bool,
    node: &mut Node,
) -> Result<(), AllocError>
    ensures { OnOk result (node.new ≡ P.paired (place_in recorded.now) node.old told) }
{
    let kind = node.kind();
    let Some(children) = node.children_mut() else {
        return Ok(());
    };
    match kind {
        Some(kind) => {
            let pairing = P::of_tree(told, kind, children.as_slice());
            pair_each(alloc, recorded, pairing, children)?;
            pairing.settle(alloc, recorded, kind, children)?;
            pair_where(alloc, recorded, pairing.is_due(), node)
        }
        None => pair_each(alloc, recorded, P::of_list(told), children),
    }
}

// The nodes right below one, in place.
#[cycle(pair_node)]
fn pair_each<P: Pairing>(
    alloc: Global,
    recorded: &Record,
    pairing: P,
    nodes: &mut Items<Node>,
) -> Result<(), AllocError>
    ensures { OnOk result (nodes.new ≡ each_told (P.paired (place_in recorded.now)) (P.tells pairing) nodes.old) }
{
    for i in 0..nodes.len() {
        if !nodes.as_slice()[i].has_parts() {
            continue;
        }
        pair_node::<P>(alloc, recorded, pairing.tells(i), nodes.item_mut(i))?;
    }
    Ok(())
}
