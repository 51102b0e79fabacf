//! Printed by tools/print_table.py from tools/tree.txt.
ghost use Rattle.std.specs.Prelude.{◌≡◌, IfOk};
ghost use Rattle.swc_tree_node.specs.declared.kind.Class.TheVariants as class;
ghost use Rattle.swc_tree_node.specs.declared.slot.Slot.TheVariants.{One};
ghost use Rattle.swc_tree_node.specs.declared.slot.Content.TheVariants.{Node as Of};
ghost use Rattle.swc_tree_node.specs.Fits.{Fits};
ghost use Rattle.swc_tree_statements.specs.Nodes.{switch_stmt_node};

use std::alloc::{AllocError, Global};
use swc_tree_handle::{Opened, Tree, Trees, class, clone_three, close_three, open_three};
use swc_tree_marks::Span;
use swc_tree_node::{Kind, Node};

/// A `switch` statement (ECMA-262, SwitchStatement).
#[derive(Debug, Drop, PartialEq, Eq)]
pub struct SwitchStmt {
    pub span: Span,
    pub discriminant: Tree<class::Expr>,
    pub cases: Trees<class::SwitchCase>,
}

impl Clone for SwitchStmt {
    ghost is_clone = { λ it copy. copy ≡ it };

    fn clone(&self) -> Result<SwitchStmt, AllocError> {
        let (span, discriminant, cases) = clone_three(&self.span, &self.discriminant, &self.cases)?;
        Ok(SwitchStmt {
            span,
            discriminant,
            cases,
        })
    }
}

impl Opened<class::SwitchStmt> for SwitchStmt {
    ghost class = { class.SwitchStmt };

    ghost node = { switch_stmt_node };

    fn from_node(closed: Node) -> SwitchStmt
        requires { Fits closed (One (Of class.SwitchStmt)) }
        ensures { switch_stmt_node result ≡ closed }
    {
        let (span, discriminant, cases) = open_three::<class::SwitchStmt, _, _, _>(
            closed,
            Kind::SwitchStmt,
        );
        SwitchStmt {
            span,
            discriminant,
            cases,
        }
    }

    fn into_node(self, alloc: Global) -> Result<Node, AllocError>
        ensures { IfOk result (λ closed. (closed ≡ switch_stmt_node self) × Fits closed (One (Of class.SwitchStmt))) }
    {
        let SwitchStmt {
            span,
            discriminant,
            cases,
        } = self;
        close_three::<class::SwitchStmt, _, _, _>(
            alloc,
            Kind::SwitchStmt,
            (span, discriminant, cases),
        )
    }
}
