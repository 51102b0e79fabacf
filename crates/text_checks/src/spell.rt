//! Each leaf and each name of a tree.
ghost use Rattle.std.specs.Prelude.{◌↔◌, IsTrue};
ghost use Rattle.text_checks.specs.Spelled.{Spelled};

use crate::leaf::is_bad_leaf;
use crate::name::has_amiss;
use swc_tree_node::Node;
use swc_tree_walk::{Finder, has_node};

/// Looks for leaves that are no tokens of their kinds, and names that can't stand where they do.
#[derive(Clone, Copy)]
pub struct Misspelled;

impl Finder for Misspelled {
    ghost use Rattle.text_checks.specs.Spelled as spec;

    ghost is_sought = { λ _ node. spec.is_misspelled node };

    fn is_sought(&self, node: &Node) -> bool {
        is_bad_leaf(node) || has_amiss(node)
    }
}

/// Whether each leaf of a tree is one token of its kind, and each name one that may stand where it does.
///
/// It takes no memory, and looks at each node and at its children once; the time is in step with the size of the tree.
pub fn is_spelled(tree: &Node) -> bool
    ensures { IsTrue result ↔ Spelled tree.now }
{
    !has_node(&Misspelled, tree)
}
