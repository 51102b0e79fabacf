//! Each leaf of a tree.
ghost use Rattle.std.specs.Prelude.{◌↔◌, IsTrue};
ghost use Rattle.text_spans.specs.Leaves.{LeavesStand};

use crate::leaf::{is_misplaced, name_stands};
use swc_tree_node::Node;
use swc_tree_walk::{Finder, has_node};

/// Looks for leaves that stand elsewhere in a text than they say.
#[derive(Clone, Copy)]
pub struct Misplaced<'t> {
    pub text: &'t [u8],
}

impl Finder for Misplaced<'_> {
    ghost use Rattle.text_spans.specs.Leaves as spec;

    ghost is_sought = { λ looks node. spec.is_misplaced looks.text.now node };

    fn is_sought(&self, node: &Node) -> bool {
        match node {
            Node::Identifier(_, ident) => {
                let ident = ident.get();
                !name_stands(self.text, ident.span, ident.sym.as_str())
            }
            Node::Tree(kind, fields) => is_misplaced(self.text, *kind, fields.as_slice()),
            _ => false,
        }
    }
}

/// Whether each leaf of a tree stands in a text at its span, as it is spelled there: names, keys, literals, texts of templates, and
/// words alone.
///
/// It takes no memory, and looks at each node once; the time is in step with the size of the tree.
pub fn leaves_stand(tree: &Node, text: &[u8]) -> bool
    ensures { IsTrue result ↔ LeavesStand text.now tree.now }
{
    let looks = Misplaced { text };
    !has_node(&looks, tree)
}
