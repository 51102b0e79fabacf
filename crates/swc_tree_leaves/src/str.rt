//! Printed by tools/print_table.py from tools/tree.txt.
ghost use Rattle.std.specs.Prelude.{◌≡◌, IfOk};
ghost use Rattle.swc_tree_node.specs.declared.kind.Class.TheVariants as class;
ghost use Rattle.swc_tree_node.specs.declared.slot.Slot.TheVariants.{One, Optional};
ghost use Rattle.swc_tree_node.specs.declared.slot.Content.TheVariants.{Node as Of};
ghost use Rattle.swc_tree_node.specs.Fits.{Fits};
ghost use Rattle.std.specs.Option.{option_map};
ghost use Rattle.swc_tree_handle.specs.Handles.{optional_node};
ghost use Rattle.swc_tree_leaves.specs.Nodes.{str_node};

use std::alloc::{AllocError, Global};
use swc_tree_handle::{Opened, Place, class, clone_three, close_three, open_three};
use swc_tree_marks::{Atom, Span};
use swc_tree_node::{Kind, Node};

/// A string literal: its value, and how it is written where that is known (ECMA-262, StringLiteral).
#[derive(Debug, Drop, PartialEq, Eq)]
pub struct Str {
    pub span: Span,
    pub value: Atom,
    pub raw: Option<Atom>,
}

impl Clone for Str {
    ghost is_clone = { λ it copy. copy ≡ it };

    fn clone(&self) -> Result<Str, AllocError> {
        let (span, value, raw) = clone_three(&self.span, &self.value, &self.raw)?;
        Ok(Str { span, value, raw })
    }
}

impl Opened<class::Str> for Str {
    ghost class = { class.Str };

    ghost node = { str_node };

    fn from_node(closed: Node) -> Str
        requires { Fits closed (One (Of class.Str)) }
        ensures { str_node result ≡ closed }
    {
        let (span, value, raw) = open_three::<class::Str, _, _, _>(closed, Kind::Str);
        Str { span, value, raw }
    }

    fn into_node(self, alloc: Global) -> Result<Node, AllocError>
        ensures { IfOk result (λ closed. (closed ≡ str_node self) × Fits closed (One (Of class.Str))) }
    {
        let Str { span, value, raw } = self;
        close_three::<class::Str, _, _, _>(alloc, Kind::Str, (span, value, raw))
    }
}

impl Place for Str {
    ghost slot = { One (Of class.Str) };

    ghost node = { str_node };

    fn taken(closed: Node) -> Str {
        Str::from_node(closed)
    }

    fn given(self, alloc: Global) -> Result<Node, AllocError> {
        self.into_node(alloc)
    }
}

/// A `Str`, or nothing: what stands in a field that may be absent.
#[derive(Drop)]
pub struct OptionalStr {
    pub held: Option<Str>,
}

impl Place for OptionalStr {
    ghost slot = { Optional (Of class.Str) };

    ghost node = { λ place. optional_node (option_map str_node place.held) };

    fn taken(closed: Node) -> OptionalStr {
        OptionalStr {
            held: Str::from_optional(closed),
        }
    }

    fn given(self, alloc: Global) -> Result<Node, AllocError> {
        Str::into_optional(self.held, alloc)
    }
}
