//! Printed by tools/print_table.py from tools/tree.txt.
ghost use Rattle.std.specs.Prelude.{◌≡◌, IfOk};
ghost use Rattle.swc_tree_node.specs.declared.kind.Class.TheVariants as class;
ghost use Rattle.swc_tree_node.specs.declared.slot.Slot.TheVariants.{One};
ghost use Rattle.swc_tree_node.specs.declared.slot.Content.TheVariants.{Node as Of};
ghost use Rattle.swc_tree_node.specs.Fits.{Fits};
ghost use Rattle.swc_tree_expressions.specs.Nodes.{of_opt_chain_base};

use std::alloc::{AllocError, Global};
use swc_tree_handle::{Opened, Tree, class};
use swc_tree_node::{Kind, Node};
use swc_tree_operations::{MemberExpr, OptCall};

/// What a part of an optional chain does (ECMA-262, OptionalChain).
#[derive(Clone, Debug, Drop, PartialEq, Eq)]
pub enum OptChainBase {
    Member(MemberExpr),
    Call(OptCall),
}

impl Opened<class::OptChainBase> for OptChainBase {
    ghost class = { class.OptChainBase };

    ghost node = { of_opt_chain_base };

    fn from_node(closed: Node) -> OptChainBase
        requires { Fits closed (One (Of class.OptChainBase)) }
        ensures { of_opt_chain_base result ≡ closed }
    {
        let tree = Tree::<class::OptChainBase>::from_node(closed);
        match tree.kind() {
            Kind::MemberExpr => OptChainBase::Member(tree.narrow::<class::MemberExpr>().open()),
            Kind::OptCall => OptChainBase::Call(tree.narrow::<class::OptCall>().open()),
            _ => unreachable!(),
        }
    }

    fn into_node(self, alloc: Global) -> Result<Node, AllocError>
        ensures { IfOk result (λ closed. (closed ≡ of_opt_chain_base self) × Fits closed (One (Of class.OptChainBase))) }
    {
        match self {
            OptChainBase::Member(opened) => opened.close_within::<class::OptChainBase>(alloc),
            OptChainBase::Call(opened) => opened.close_within::<class::OptChainBase>(alloc),
        }
    }
}
