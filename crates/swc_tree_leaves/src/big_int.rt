//! Printed by tools/print_table.py from tools/tree.txt.
ghost use Rattle.std.specs.Prelude.{◌≡◌, IfOk};
ghost use Rattle.swc_tree_node.specs.declared.kind.Class.TheVariants as class;
ghost use Rattle.swc_tree_node.specs.declared.slot.Slot.TheVariants.{One};
ghost use Rattle.swc_tree_node.specs.declared.slot.Content.TheVariants.{Node as Of};
ghost use Rattle.swc_tree_node.specs.Fits.{Fits};
ghost use Rattle.swc_tree_leaves.specs.Nodes.{big_int_node};

use std::alloc::{AllocError, Global};
use swc_tree_handle::{Opened, class, clone_two, close_two, open_two};
use swc_tree_marks::{Atom, Span};
use swc_tree_node::{Kind, Node};

/// A literal of a big integer, as it is written (ECMA-262, NumericLiteral).
#[derive(Debug, Drop, PartialEq, Eq)]
pub struct BigInt {
    pub span: Span,
    pub text: Atom,
}

impl Clone for BigInt {
    ghost is_clone = { λ it copy. copy ≡ it };

    fn clone(&self) -> Result<BigInt, AllocError> {
        let (span, text) = clone_two(&self.span, &self.text)?;
        Ok(BigInt { span, text })
    }
}

impl Opened<class::BigInt> for BigInt {
    ghost class = { class.BigInt };

    ghost node = { big_int_node };

    fn from_node(closed: Node) -> BigInt
        requires { Fits closed (One (Of class.BigInt)) }
        ensures { big_int_node result ≡ closed }
    {
        let (span, text) = open_two::<class::BigInt, _, _>(closed, Kind::BigInt);
        BigInt { span, text }
    }

    fn into_node(self, alloc: Global) -> Result<Node, AllocError>
        ensures { IfOk result (λ closed. (closed ≡ big_int_node self) × Fits closed (One (Of class.BigInt))) }
    {
        let BigInt { span, text } = self;
        close_two::<class::BigInt, _, _>(alloc, Kind::BigInt, (span, text))
    }
}
