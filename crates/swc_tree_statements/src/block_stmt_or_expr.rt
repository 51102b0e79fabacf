//! Printed by tools/print_table.py from tools/tree.txt.
ghost use Rattle.std.specs.Prelude.{◌≡◌, IfOk};
ghost use Rattle.swc_tree_node.specs.declared.kind.Class.TheVariants as class;
ghost use Rattle.swc_tree_node.specs.declared.slot.Slot.TheVariants.{One};
ghost use Rattle.swc_tree_node.specs.declared.slot.Content.TheVariants.{Node as Of};
ghost use Rattle.swc_tree_node.specs.Fits.{Fits};
ghost use Rattle.swc_tree_statements.specs.Nodes.{of_block_stmt_or_expr};

use crate::block_stmt::BlockStmt;
use std::alloc::{AllocError, Global};
use swc_tree_handle::{Opened, Tree, class};
use swc_tree_node::{Kind, Node};

/// The body of an arrow function (ECMA-262, ConciseBody).
#[derive(Clone, Debug, Drop, PartialEq, Eq)]
pub enum BlockStmtOrExpr {
    BlockStmt(BlockStmt),
    Expr(Tree<class::Expr>),
}

impl Opened<class::BlockStmtOrExpr> for BlockStmtOrExpr {
    ghost class = { class.BlockStmtOrExpr };

    ghost node = { of_block_stmt_or_expr };

    fn from_node(closed: Node) -> BlockStmtOrExpr
        requires { Fits closed (One (Of class.BlockStmtOrExpr)) }
        ensures { of_block_stmt_or_expr result ≡ closed }
    {
        let tree = Tree::<class::BlockStmtOrExpr>::from_node(closed);
        match tree.kind() {
            Kind::BlockStmt => BlockStmtOrExpr::BlockStmt(tree.narrow::<class::BlockStmt>().open()),
            _ => BlockStmtOrExpr::Expr(tree.narrow()),
        }
    }

    fn into_node(self, alloc: Global) -> Result<Node, AllocError>
        ensures { IfOk result (λ closed. (closed ≡ of_block_stmt_or_expr self) × Fits closed (One (Of class.BlockStmtOrExpr))) }
    {
        match self {
            BlockStmtOrExpr::BlockStmt(opened) => opened.close_within::<class::BlockStmtOrExpr>(
                alloc,
            ),
            BlockStmtOrExpr::Expr(tree) => Ok(tree.widen::<class::BlockStmtOrExpr>().into_node()),
        }
    }
}
