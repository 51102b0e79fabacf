//! Nodes of a kind.
ghost use Rattle.std.specs.Prelude.{◌≡◌, false, IsTrue, IfOk};
ghost use Rattle.swc_tree_node.specs.declared.kind.Class.{Class};
ghost use Rattle.swc_tree_node.specs.declared.node.Node.{Tree};
ghost use Rattle.swc_tree_node.specs.declared.slot.Content.TheVariants.{Node as Of};
ghost use Rattle.swc_tree_node.specs.declared.slot.Slot.TheVariants.{One};
ghost use Rattle.swc_tree_node.specs.Fits.{FieldsFit, Fits, belongs};
ghost use Rattle.swc_tree_node.specs.Table.{is_identifier, slots_of};

use std::alloc::{AllocError, Global};
use swc_tree_items::Items;
use swc_tree_node::{Kind, Node};

/// A node of a kind, whose fields are those that the table has for the kind.
///
/// # Errors
///
/// Where memory was refused. The fields are then dropped.
#[tactic(auto, using(swc_tree_node::proofs::Fit::tree_closes))]
pub fn node_of<const N: usize>(
    alloc: Global,
    kind: Kind,
    fields: [Node; N],
) -> Result<Node, AllocError>
    requires fields { FieldsFit (slots_of kind) fields }
    requires kind { is_identifier kind ≡ false }
    ensures node { IfOk result (λ node. node ≡ Tree kind fields.entry) }
    ensures fits { (c : Class) → IsTrue (belongs kind c) → IfOk result (λ node. Fits node (One (Of c))) }
{
    let fields = Items::from_vec(Vec::from_array(alloc, fields)?);
    Ok(Node::Tree(kind, fields))
}
