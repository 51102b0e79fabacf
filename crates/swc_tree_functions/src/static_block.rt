//! Printed by tools/print_table.py from tools/tree.txt.
ghost use Rattle.std.specs.Prelude.{◌≡◌, IfOk};
ghost use Rattle.swc_tree_node.specs.declared.kind.Class.TheVariants as class;
ghost use Rattle.swc_tree_node.specs.declared.slot.Slot.TheVariants.{One};
ghost use Rattle.swc_tree_node.specs.declared.slot.Content.TheVariants.{Node as Of};
ghost use Rattle.swc_tree_node.specs.Fits.{Fits};
ghost use Rattle.swc_tree_functions.specs.Nodes.{static_block_node};

use std::alloc::{AllocError, Global};
use swc_tree_handle::{Opened, Tree, class, clone_two, close_two, open_two};
use swc_tree_marks::Span;
use swc_tree_node::{Kind, Node};

/// A static block of a class (ECMA-262, ClassStaticBlock).
#[derive(Debug, Drop, PartialEq, Eq)]
pub struct StaticBlock {
    pub span: Span,
    pub body: Tree<class::BlockStmt>,
}

impl Clone for StaticBlock {
    ghost is_clone = { λ it copy. copy ≡ it };

    fn clone(&self) -> Result<StaticBlock, AllocError> {
        let (span, body) = clone_two(&self.span, &self.body)?;
        Ok(StaticBlock { span, body })
    }
}

impl Opened<class::StaticBlock> for StaticBlock {
    ghost class = { class.StaticBlock };

    ghost node = { static_block_node };

    fn from_node(closed: Node) -> StaticBlock
        requires { Fits closed (One (Of class.StaticBlock)) }
        ensures { static_block_node result ≡ closed }
    {
        let (span, body) = open_two::<class::StaticBlock, _, _>(closed, Kind::StaticBlock);
        StaticBlock { span, body }
    }

    fn into_node(self, alloc: Global) -> Result<Node, AllocError>
        ensures { IfOk result (λ closed. (closed ≡ static_block_node self) × Fits closed (One (Of class.StaticBlock))) }
    {
        let StaticBlock { span, body } = self;
        close_two::<class::StaticBlock, _, _>(alloc, Kind::StaticBlock, (span, body))
    }
}
