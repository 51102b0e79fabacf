//! Printed by tools/print_table.py from tools/tree.txt.
ghost use Rattle.std.specs.Prelude.{◌≡◌, IfOk};
ghost use Rattle.swc_tree_node.specs.declared.kind.Class.TheVariants as class;
ghost use Rattle.swc_tree_node.specs.declared.slot.Slot.TheVariants.{One};
ghost use Rattle.swc_tree_node.specs.declared.slot.Content.TheVariants.{Node as Of};
ghost use Rattle.swc_tree_node.specs.Fits.{Fits};
ghost use Rattle.swc_tree_leaves.specs.Nodes.{of_lit};

use crate::big_int::BigInt;
use crate::bool::Bool;
use crate::null::Null;
use crate::number::Number;
use crate::regex::Regex;
use crate::str::Str;
use std::alloc::{AllocError, Global};
use swc_tree_handle::{Opened, Tree, class};
use swc_tree_node::{Kind, Node};

/// A literal (ECMA-262, Literal).
#[derive(Clone, Debug, Drop, PartialEq, Eq)]
pub enum Lit {
    Str(Str),
    Bool(Bool),
    Null(Null),
    Num(Number),
    BigInt(BigInt),
    Regex(Regex),
}

impl Opened<class::Lit> for Lit {
    ghost class = { class.Lit };

    ghost node = { of_lit };

    fn from_node(closed: Node) -> Lit
        requires { Fits closed (One (Of class.Lit)) }
        ensures { of_lit result ≡ closed }
    {
        let tree = Tree::<class::Lit>::from_node(closed);
        match tree.kind() {
            Kind::Str => Lit::Str(tree.narrow::<class::Str>().open()),
            Kind::Bool => Lit::Bool(tree.narrow::<class::Bool>().open()),
            Kind::Null => Lit::Null(tree.narrow::<class::Null>().open()),
            Kind::Number => Lit::Num(tree.narrow::<class::Number>().open()),
            Kind::BigInt => Lit::BigInt(tree.narrow::<class::BigInt>().open()),
            Kind::Regex => Lit::Regex(tree.narrow::<class::Regex>().open()),
            _ => unreachable!(),
        }
    }

    fn into_node(self, alloc: Global) -> Result<Node, AllocError>
        ensures { IfOk result (λ closed. (closed ≡ of_lit self) × Fits closed (One (Of class.Lit))) }
    {
        match self {
            Lit::Str(opened) => opened.close_within::<class::Lit>(alloc),
            Lit::Bool(opened) => opened.close_within::<class::Lit>(alloc),
            Lit::Null(opened) => opened.close_within::<class::Lit>(alloc),
            Lit::Num(opened) => opened.close_within::<class::Lit>(alloc),
            Lit::BigInt(opened) => opened.close_within::<class::Lit>(alloc),
            Lit::Regex(opened) => opened.close_within::<class::Lit>(alloc),
        }
    }
}
