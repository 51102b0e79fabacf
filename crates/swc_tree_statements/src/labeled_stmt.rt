//! Printed by tools/print_table.py from tools/tree.txt.
ghost use Rattle.std.specs.Prelude.{◌≡◌, IfOk};
ghost use Rattle.swc_tree_node.specs.declared.kind.Class.TheVariants as class;
ghost use Rattle.swc_tree_node.specs.declared.slot.Slot.TheVariants.{One};
ghost use Rattle.swc_tree_node.specs.declared.slot.Content.TheVariants.{Node as Of};
ghost use Rattle.swc_tree_node.specs.Fits.{Fits};
ghost use Rattle.swc_tree_statements.specs.Nodes.{labeled_stmt_node};

use std::alloc::{AllocError, Global};
use swc_tree_handle::{Opened, Tree, class, clone_three, close_three, open_three};
use swc_tree_marks::{Ident, Span};
use swc_tree_node::{Kind, Node};

/// A statement with a label (ECMA-262, LabelledStatement).
#[derive(Debug, Drop, PartialEq, Eq)]
pub struct LabeledStmt {
    pub span: Span,
    pub label: Ident,
    pub body: Tree<class::Stmt>,
}

impl Clone for LabeledStmt {
    ghost is_clone = { λ it copy. copy ≡ it };

    fn clone(&self) -> Result<LabeledStmt, AllocError> {
        let (span, label, body) = clone_three(&self.span, &self.label, &self.body)?;
        Ok(LabeledStmt { span, label, body })
    }
}

impl Opened<class::LabeledStmt> for LabeledStmt {
    ghost class = { class.LabeledStmt };

    ghost node = { labeled_stmt_node };

    fn from_node(closed: Node) -> LabeledStmt
        requires { Fits closed (One (Of class.LabeledStmt)) }
        ensures { labeled_stmt_node result ≡ closed }
    {
        let (span, label, body) = open_three::<class::LabeledStmt, _, _, _>(
            closed,
            Kind::LabeledStmt,
        );
        LabeledStmt { span, label, body }
    }

    fn into_node(self, alloc: Global) -> Result<Node, AllocError>
        ensures { IfOk result (λ closed. (closed ≡ labeled_stmt_node self) × Fits closed (One (Of class.LabeledStmt))) }
    {
        let LabeledStmt { span, label, body } = self;
        close_three::<class::LabeledStmt, _, _, _>(alloc, Kind::LabeledStmt, (span, label, body))
    }
}
