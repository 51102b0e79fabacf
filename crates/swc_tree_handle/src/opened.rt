//! What a node is, opened one level deep.
ghost use Rattle.std.specs.Prelude.{◌≡◌, IfOk, IsTrue};
ghost use Rattle.std.specs.Option.{option_map};
ghost use Rattle.swc_tree_node.specs.declared.slot.Slot.TheVariants.{One, Optional};
ghost use Rattle.swc_tree_node.specs.declared.slot.Content.TheVariants.{Node as Of};
ghost use Rattle.swc_tree_node.specs.Fits.{Fits};
ghost use Rattle.swc_tree_handle.specs.Handles.{is_within, optional_node};

use crate::class::Syntax;
use crate::tree::Tree;
use std::alloc::{AllocError, Global};
use swc_tree_node::Node;

/// A struct or a sum of the syntax tree, one level deep: its subtrees are `Tree`s and `Trees`. `C` is
/// the class of the nodes that open to it.
pub trait Opened<C>: Sized {
    ghost use Rattle.swc_tree_node.specs.declared.kind.Class.{Class};
    ghost use Rattle.swc_tree_node.specs.declared.node.Node.{Node};

    /// The class `C`.
    ghost class: { Class };

    /// The node that an opened value is.
    ghost node: { Self → Node };

    /// Takes a node apart, with no copy of what is below it.
    fn from_node(closed: Node) -> Self
        requires { Fits closed (One (Of class)) }
        ensures { node result ≡ closed };

    /// Puts the node together. Where memory is refused, the value is dropped.
    fn into_node(self, alloc: Global) -> Result<Node, AllocError>
        ensures { IfOk result (λ closed. (closed ≡ node self) × Fits closed (One (Of class))) };

    /// Takes apart what an optional place holds.
    #[tactic(auto, using(swc_tree_node::proofs::Fit::fitting))]
    final fn from_optional(closed: Node) -> Option<Self>
        requires { Fits closed (Optional (Of class)) }
        ensures { optional_node (option_map node result) ≡ closed }
    {
        match closed {
            Node::Absent => None,
            closed => Some(Self::from_node(closed)),
        }
    }

    /// Puts together what an optional place is to hold. Where memory is refused, the value is dropped.
    #[tactic(auto, using(swc_tree_node::proofs::Fit::fitting))]
    final fn into_optional(opened: Option<Self>, alloc: Global) -> Result<Node, AllocError>
        ensures { IfOk result (λ closed. (closed ≡ optional_node (option_map node opened)) × Fits closed (Optional (Of class))) }
    {
        match opened {
            None => Ok(Node::Absent),
            Some(opened) => {
                let closed = opened.into_node(alloc)?;
                Ok(closed)
            }
        }
    }

    /// Puts the node together, with its class. Where memory is refused, the value is dropped.
    final fn close(self, alloc: Global) -> Result<Tree<C>, AllocError>
    where
        C: Syntax,
        requires { class ≡ C.class }
        ensures { IfOk result (λ tree. tree ≡ node self) }
    {
        Ok(Tree::from_node(self.into_node(alloc)?))
    }

    /// Puts the node together as one of a wider class. Where memory is refused, the value is dropped.
    final fn close_within<D: Syntax>(self, alloc: Global) -> Result<Node, AllocError>
    where
        C: Syntax,
        requires class { class ≡ C.class }
        requires within { IsTrue (is_within C.class D.class) }
        ensures { IfOk result (λ closed. (closed ≡ node self) × Fits closed (One (Of D.class))) }
    {
        let tree = self.close(alloc)?;
        Ok(tree.widen::<D>().into_node())
    }
}

impl<C: Syntax> Tree<C> {
    /// Takes the node apart, one level deep, with no copy of what is below it.
    pub fn open<T: Opened<C>>(self) -> T
        requires { T.class ≡ C.class }
        ensures { T.node result ≡ self }
    {
        T::from_node(self.into_node())
    }
}
