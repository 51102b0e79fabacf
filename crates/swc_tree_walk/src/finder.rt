//! A look for a node of a tree.
ghost use Rattle.std.specs.Prelude.{◌↔◌, IsTrue};
ghost use Rattle.swc_tree_walk.specs.Nodes.{AnyHasNode, HasNode};

use swc_tree_node::Node;

/// Tells by a node itself whether it is one that is looked for.
pub trait Finder {
    ghost use Rattle.std.specs.Prelude.{◌≡◌, Bool};
    ghost use Rattle.swc_tree_node.specs.declared.node.Node.{Node, out-Node};
    ghost use Rattle.swc_tree_node.specs.declared.node.Node.TheOpen.{Node-F};

    /// Whether it is.
    ghost is_sought: { Self → Node-F Node → Bool };

    /// Whether the node is one that is looked for.
    fn is_sought(&self, node: &Node) -> bool
        ensures { result ≡ is_sought self.now (out-Node node.now) };
}

/// Whether a node that is looked for stands in a tree, or is the tree.
///
/// It looks at each node at most once, and stops at the first that it finds.
#[cycle(has_node)]
pub fn has_node<F: Finder>(finder: &F, tree: &Node) -> bool
    ensures { IsTrue result ↔ HasNode (F.is_sought finder.now) tree.now }
{
    if finder.is_sought(tree) {
        return true;
    }
    any_has_node(finder, tree.children())
}

/// Whether a node that is looked for stands in one of some trees.
#[cycle(has_node)]
pub fn any_has_node<F: Finder>(finder: &F, trees: &[Node]) -> bool
    ensures { IsTrue result ↔ AnyHasNode (F.is_sought finder.now) trees.now }
{
    for i in 0..trees.len() {
        if has_node(finder, &trees[i]) {
            return true;
        }
    }
    false
}
