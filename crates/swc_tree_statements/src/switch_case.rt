//! Printed by tools/print_table.py from tools/tree.txt.
ghost use Rattle.std.specs.Prelude.{◌≡◌, IfOk};
ghost use Rattle.swc_tree_node.specs.declared.kind.Class.TheVariants as class;
ghost use Rattle.swc_tree_node.specs.declared.slot.Slot.TheVariants.{One};
ghost use Rattle.swc_tree_node.specs.declared.slot.Content.TheVariants.{Node as Of};
ghost use Rattle.swc_tree_node.specs.Fits.{Fits};
ghost use Rattle.swc_tree_statements.specs.Nodes.{switch_case_node};

use std::alloc::{AllocError, Global};
use swc_tree_handle::{Opened, Tree, Trees, class, clone_three, close_three, open_three};
use swc_tree_marks::Span;
use swc_tree_node::{Kind, Node};

/// A case of a `switch`; the default has no test (ECMA-262, CaseClause and DefaultClause).
#[derive(Debug, Drop, PartialEq, Eq)]
pub struct SwitchCase {
    pub span: Span,
    pub test: Option<Tree<class::Expr>>,
    pub cons: Trees<class::Stmt>,
}

impl Clone for SwitchCase {
    ghost is_clone = { λ it copy. copy ≡ it };

    fn clone(&self) -> Result<SwitchCase, AllocError> {
        let (span, test, cons) = clone_three(&self.span, &self.test, &self.cons)?;
        Ok(SwitchCase { span, test, cons })
    }
}

impl Opened<class::SwitchCase> for SwitchCase {
    ghost class = { class.SwitchCase };

    ghost node = { switch_case_node };

    fn from_node(closed: Node) -> SwitchCase
        requires { Fits closed (One (Of class.SwitchCase)) }
        ensures { switch_case_node result ≡ closed }
    {
        let (span, test, cons) = open_three::<class::SwitchCase, _, _, _>(closed, Kind::SwitchCase);
        SwitchCase { span, test, cons }
    }

    fn into_node(self, alloc: Global) -> Result<Node, AllocError>
        ensures { IfOk result (λ closed. (closed ≡ switch_case_node self) × Fits closed (One (Of class.SwitchCase))) }
    {
        let SwitchCase { span, test, cons } = self;
        close_three::<class::SwitchCase, _, _, _>(alloc, Kind::SwitchCase, (span, test, cons))
    }
}
