//! Printed by tools/print_table.py from tools/tree.txt.
ghost use Rattle.std.specs.Prelude.{◌≡◌, IfOk};
ghost use Rattle.swc_tree_node.specs.declared.kind.Class.TheVariants as class;
ghost use Rattle.swc_tree_node.specs.declared.slot.Slot.TheVariants.{One};
ghost use Rattle.swc_tree_node.specs.declared.slot.Content.TheVariants.{Node as Of};
ghost use Rattle.swc_tree_node.specs.Fits.{Fits};
ghost use Rattle.swc_tree_statements.specs.Nodes.{block_stmt_node};

use std::alloc::{AllocError, Global};
use swc_tree_handle::{Opened, Trees, class, clone_two, close_two, open_two};
use swc_tree_marks::Span;
use swc_tree_node::{Kind, Node};

/// A block, or the body of a function (ECMA-262, Block and FunctionBody).
#[derive(Debug, Drop, PartialEq, Eq)]
pub struct BlockStmt {
    pub span: Span,
    pub stmts: Trees<class::Stmt>,
}

impl Clone for BlockStmt {
    ghost is_clone = { λ it copy. copy ≡ it };

    fn clone(&self) -> Result<BlockStmt, AllocError> {
        let (span, stmts) = clone_two(&self.span, &self.stmts)?;
        Ok(BlockStmt { span, stmts })
    }
}

impl Opened<class::BlockStmt> for BlockStmt {
    ghost class = { class.BlockStmt };

    ghost node = { block_stmt_node };

    fn from_node(closed: Node) -> BlockStmt
        requires { Fits closed (One (Of class.BlockStmt)) }
        ensures { block_stmt_node result ≡ closed }
    {
        let (span, stmts) = open_two::<class::BlockStmt, _, _>(closed, Kind::BlockStmt);
        BlockStmt { span, stmts }
    }

    fn into_node(self, alloc: Global) -> Result<Node, AllocError>
        ensures { IfOk result (λ closed. (closed ≡ block_stmt_node self) × Fits closed (One (Of class.BlockStmt))) }
    {
        let BlockStmt { span, stmts } = self;
        close_two::<class::BlockStmt, _, _>(alloc, Kind::BlockStmt, (span, stmts))
    }
}
