//! Printed by tools/print_table.py from tools/tree.txt.
ghost use Rattle.std.specs.Prelude.{◌≡◌, IfOk};
ghost use Rattle.swc_tree_node.specs.declared.kind.Class.TheVariants as class;
ghost use Rattle.swc_tree_node.specs.declared.slot.Slot.TheVariants.{One};
ghost use Rattle.swc_tree_node.specs.declared.slot.Content.TheVariants.{Node as Of};
ghost use Rattle.swc_tree_node.specs.Fits.{Fits};
ghost use Rattle.swc_tree_statements.specs.Nodes.{return_stmt_node};

use std::alloc::{AllocError, Global};
use swc_tree_handle::{Opened, Tree, class, close_two, open_two};
use swc_tree_marks::Span;
use swc_tree_node::{Kind, Node};

/// A return statement (ECMA-262, ReturnStatement).
#[derive(Clone, Debug, Drop, PartialEq, Eq)]
pub struct ReturnStmt {
    pub span: Span,
    pub arg: Option<Tree<class::Expr>>,
}

impl Opened<class::ReturnStmt> for ReturnStmt {
    ghost class = { class.ReturnStmt };

    ghost node = { return_stmt_node };

    fn from_node(closed: Node) -> ReturnStmt
        requires { Fits closed (One (Of class.ReturnStmt)) }
        ensures { return_stmt_node result ≡ closed }
    {
        let (span, arg) = open_two::<class::ReturnStmt, _, _>(closed, Kind::ReturnStmt);
        ReturnStmt { span, arg }
    }

    fn into_node(self, alloc: Global) -> Result<Node, AllocError>
        ensures { IfOk result (λ closed. (closed ≡ return_stmt_node self) × Fits closed (One (Of class.ReturnStmt))) }
    {
        let ReturnStmt { span, arg } = self;
        close_two::<class::ReturnStmt, _, _>(alloc, Kind::ReturnStmt, (span, arg))
    }
}
