//! Printed by tools/print_table.py from tools/tree.txt.
ghost use Rattle.std.specs.Prelude.{◌≡◌, IfOk};
ghost use Rattle.swc_tree_node.specs.declared.kind.Class.TheVariants as class;
ghost use Rattle.swc_tree_node.specs.declared.slot.Slot.TheVariants.{One};
ghost use Rattle.swc_tree_node.specs.declared.slot.Content.TheVariants.{Node as Of};
ghost use Rattle.swc_tree_node.specs.Fits.{Fits};
ghost use Rattle.swc_tree_leaves.specs.Nodes.{number_node};

use std::alloc::{AllocError, Global};
use swc_tree_handle::{Opened, class, clone_two, close_two, open_two};
use swc_tree_marks::{Atom, Span};
use swc_tree_node::{Kind, Node};

/// A number literal, as it is written (ECMA-262, NumericLiteral).
#[derive(Debug, Drop, PartialEq, Eq)]
pub struct Number {
    pub span: Span,
    pub text: Atom,
}

impl Clone for Number {
    ghost is_clone = { λ it copy. copy ≡ it };

    fn clone(&self) -> Result<Number, AllocError> {
        let (span, text) = clone_two(&self.span, &self.text)?;
        Ok(Number { span, text })
    }
}

impl Opened<class::Number> for Number {
    ghost class = { class.Number };

    ghost node = { number_node };

    fn from_node(closed: Node) -> Number
        requires { Fits closed (One (Of class.Number)) }
        ensures { number_node result ≡ closed }
    {
        let (span, text) = open_two::<class::Number, _, _>(closed, Kind::Number);
        Number { span, text }
    }

    fn into_node(self, alloc: Global) -> Result<Node, AllocError>
        ensures { IfOk result (λ closed. (closed ≡ number_node self) × Fits closed (One (Of class.Number))) }
    {
        let Number { span, text } = self;
        close_two::<class::Number, _, _>(alloc, Kind::Number, (span, text))
    }
}
