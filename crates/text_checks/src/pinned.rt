//! Whether a tree is the one that its tokens say.
ghost use Rattle.std.specs.Prelude.{◌↔◌, IsTrue};
ghost use Rattle.swc_tree_node.specs.declared.slot.Slot.{Slot};
ghost use Rattle.swc_tree_node.specs.Fits.{Fits};
ghost use Rattle.swc_tree_grammar.specs.Writable.{Writable};
ghost use Rattle.swc_tree_walk.specs.Nodes.{HasNode};
ghost use Rattle.text_checks.specs.Pinned as spec;
ghost use Rattle.text_checks.specs.Pinned.{IsPinned};
ghost use Rattle.text_checks.specs.Words.{Worded};

use crate::astray::Astray;
use crate::lax::Lax;
use crate::words::is_worded;
use swc_base_writable::is_writable;
use swc_tree_node::Node;
use swc_tree_walk::has_node;

fn has_astray(tree: &Node) -> bool
    ensures { IsTrue result ↔ HasNode spec.is_astray tree.now }
{
    has_node(&Astray, tree)
}

fn has_lax(tree: &Node) -> bool
    ensures { IsTrue result ↔ HasNode spec.is_lax tree.now }
{
    has_node(&Lax, tree)
}

fn has_its_words(tree: &Node) -> bool
    ensures { IsTrue result ↔ Worded tree.now }
{
    is_worded(tree)
}

fn can_be_written(tree: &Node) -> bool
    ensures { (s : Slot) → Fits tree.now s → IsTrue result ↔ Writable tree.now }
{
    is_writable(tree)
}

/// Whether a tree in which no node is astray, as `Astray` has it, is the one that its tokens say.
///
/// It takes no memory; the time is in step with the size of the tree.
pub fn is_pinned_if_straight(tree: &Node) -> bool
    ensures { (HasNode spec.is_astray tree.now → ⊥) → (s : Slot) → Fits tree.now s → IsTrue result ↔ IsPinned tree.now }
{
    if !has_its_words(tree) {
        return false;
    }
    can_be_written(tree) || has_lax(tree)
}

/// Whether a tree is the one that its tokens say, where the grammar alone leaves a choice: patterns are read as patterns, operators are
/// grouped to the left, chains ask something, `yield` and `await` are what they have to be, and what is no sloppy code can be written down.
///
/// It takes no memory; the time is in step with the size of the tree.
pub fn is_pinned(tree: &Node) -> bool
    ensures { (s : Slot) → Fits tree.now s → IsTrue result ↔ IsPinned tree.now }
{
    if has_astray(tree) {
        return false;
    }
    is_pinned_if_straight(tree)
}
