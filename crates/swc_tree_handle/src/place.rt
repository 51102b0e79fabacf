//! What stands in one field, as a type.
ghost use Rattle.std.specs.Prelude.{◌≡◌, IfOk};
ghost use Rattle.std.specs.Option.{option_map};
ghost use Rattle.swc_tree_node.specs.declared.kind.Class.TheVariants as class;
ghost use Rattle.swc_tree_node.specs.declared.node.Node.TheVariants as leaf;
ghost use Rattle.swc_tree_node.specs.declared.slot.Slot.TheVariants.{One, Optional, List as Several, Holes as WithHoles, OptionalList, Pairs as OfPairs};
ghost use Rattle.swc_tree_node.specs.declared.slot.Content.TheVariants as content;
ghost use Rattle.swc_tree_node.specs.Fits.{Fits};
ghost use Rattle.swc_tree_handle.specs.Handles.{ident_node, optional_list, optional_node, optional_span, optional_text};

use crate::class::Syntax;
use crate::holes::Holes;
use crate::leaves::{
    from_flag, from_optional_span, from_optional_text, from_span, from_text, to_flag,
    to_optional_span, to_optional_text, to_span, to_text,
};
use crate::opened::Opened;
use crate::pairs::Pairs;
use crate::tree::Tree;
use crate::trees::Trees;
use std::alloc::{AllocError, Global};
use swc_tree_marks::{Atom, Ident, Span};
use swc_tree_node::Node;

/// What stands in a field: a leaf, a subtree, a list, or one of these or nothing.
pub trait Place: Sized + Drop {
    ghost use Rattle.swc_tree_node.specs.declared.slot.Slot.{Slot};
    ghost use Rattle.swc_tree_node.specs.declared.node.Node.{Node};

    /// What the table says of the field.
    ghost slot: { Slot };

    /// The node that stands there.
    ghost node: { Self → Node };

    /// What a node is there.
    fn taken(closed: Node) -> Self
        requires { Fits closed slot }
        ensures { node result ≡ closed };

    /// The node. Where memory is refused, the value is dropped.
    fn given(self, alloc: Global) -> Result<Node, AllocError>
        ensures { IfOk result (λ closed. (closed ≡ node self) × Fits closed slot) };
}

impl Place for Span {
    ghost slot = { One content.Span };

    ghost node = { leaf.Span };

    fn taken(closed: Node) -> Span {
        to_span(closed)
    }

    fn given(self, alloc: Global) -> Result<Node, AllocError> {
        Ok(from_span(self))
    }
}

impl Place for Option<Span> {
    ghost slot = { Optional content.Span };

    ghost node = { optional_span };

    fn taken(closed: Node) -> Option<Span> {
        to_optional_span(closed)
    }

    fn given(self, alloc: Global) -> Result<Node, AllocError> {
        Ok(from_optional_span(self))
    }
}

impl Place for Atom {
    ghost slot = { One content.Text };

    ghost node = { leaf.Text };

    fn taken(closed: Node) -> Atom {
        to_text(closed)
    }

    fn given(self, alloc: Global) -> Result<Node, AllocError> {
        Ok(from_text(self))
    }
}

impl Place for Option<Atom> {
    ghost slot = { Optional content.Text };

    ghost node = { optional_text };

    fn taken(closed: Node) -> Option<Atom> {
        to_optional_text(closed)
    }

    fn given(self, alloc: Global) -> Result<Node, AllocError> {
        Ok(from_optional_text(self))
    }
}

impl Place for bool {
    ghost slot = { One content.Flag };

    ghost node = { leaf.Flag };

    fn taken(closed: Node) -> bool {
        to_flag(closed)
    }

    fn given(self, alloc: Global) -> Result<Node, AllocError> {
        Ok(from_flag(self))
    }
}

impl Place for Ident {
    ghost slot = { One (content.Node class.Ident) };

    ghost node = { ident_node };

    fn taken(closed: Node) -> Ident {
        Ident::from_node(closed)
    }

    fn given(self, alloc: Global) -> Result<Node, AllocError> {
        self.into_node(alloc)
    }
}

impl Place for Option<Ident> {
    ghost slot = { Optional (content.Node class.Ident) };

    ghost node = { λ ident. optional_node (option_map ident_node ident) };

    fn taken(closed: Node) -> Option<Ident> {
        Ident::from_optional(closed)
    }

    fn given(self, alloc: Global) -> Result<Node, AllocError> {
        Ident::into_optional(self, alloc)
    }
}

impl<C: Syntax> Place for Tree<C> {
    ghost slot = { One (content.Node C.class) };

    ghost node = { λ tree. tree };

    fn taken(closed: Node) -> Tree<C> {
        Tree::from_node(closed)
    }

    fn given(self, alloc: Global) -> Result<Node, AllocError> {
        Ok(self.into_node())
    }
}

impl<C: Syntax> Place for Option<Tree<C>> {
    ghost slot = { Optional (content.Node C.class) };

    ghost node = { optional_node };

    fn taken(closed: Node) -> Option<Tree<C>> {
        Tree::from_optional(closed)
    }

    fn given(self, alloc: Global) -> Result<Node, AllocError> {
        Ok(Tree::into_optional(self))
    }
}

impl<C: Syntax> Place for Trees<C> {
    ghost slot = { Several (content.Node C.class) };

    ghost node = { leaf.List };

    fn taken(closed: Node) -> Trees<C> {
        Trees::from_node(closed)
    }

    fn given(self, alloc: Global) -> Result<Node, AllocError> {
        Ok(self.into_node())
    }
}

impl<C: Syntax> Place for Option<Trees<C>> {
    ghost slot = { OptionalList (content.Node C.class) };

    ghost node = { optional_list };

    fn taken(closed: Node) -> Option<Trees<C>> {
        Trees::from_optional(closed)
    }

    fn given(self, alloc: Global) -> Result<Node, AllocError> {
        Ok(Trees::into_optional(self))
    }
}

impl<C: Syntax> Place for Holes<C> {
    ghost slot = { WithHoles (content.Node C.class) };

    ghost node = { leaf.List };

    fn taken(closed: Node) -> Holes<C> {
        Holes::from_node(closed)
    }

    fn given(self, alloc: Global) -> Result<Node, AllocError> {
        Ok(self.into_node())
    }
}

impl Place for Option<Pairs> {
    ghost slot = { OfPairs };

    ghost node = { optional_list };

    fn taken(closed: Node) -> Option<Pairs> {
        Pairs::from_optional(closed)
    }

    fn given(self, alloc: Global) -> Result<Node, AllocError> {
        Ok(Pairs::into_optional(self))
    }
}
