//! Printed by tools/print_table.py from tools/tree.txt.
ghost use Rattle.std.specs.Prelude.{◌≡◌, IfOk};
ghost use Rattle.swc_tree_node.specs.declared.kind.Class.TheVariants as class;
ghost use Rattle.swc_tree_node.specs.declared.slot.Slot.TheVariants.{One};
ghost use Rattle.swc_tree_node.specs.declared.slot.Content.TheVariants.{Node as Of};
ghost use Rattle.swc_tree_node.specs.Fits.{Fits};
ghost use Rattle.swc_tree_statements.specs.Nodes.{catch_clause_node};

use std::alloc::{AllocError, Global};
use swc_tree_handle::{Opened, Tree, class, clone_three, close_three, open_three};
use swc_tree_marks::Span;
use swc_tree_node::{Kind, Node};

/// What catches an exception (ECMA-262, Catch).
#[derive(Debug, Drop, PartialEq, Eq)]
pub struct CatchClause {
    pub span: Span,
    pub param: Option<Tree<class::Pat>>,
    pub body: Tree<class::BlockStmt>,
}

impl Clone for CatchClause {
    ghost is_clone = { λ it copy. copy ≡ it };

    fn clone(&self) -> Result<CatchClause, AllocError> {
        let (span, param, body) = clone_three(&self.span, &self.param, &self.body)?;
        Ok(CatchClause { span, param, body })
    }
}

impl Opened<class::CatchClause> for CatchClause {
    ghost class = { class.CatchClause };

    ghost node = { catch_clause_node };

    fn from_node(closed: Node) -> CatchClause
        requires { Fits closed (One (Of class.CatchClause)) }
        ensures { catch_clause_node result ≡ closed }
    {
        let (span, param, body) = open_three::<class::CatchClause, _, _, _>(
            closed,
            Kind::CatchClause,
        );
        CatchClause { span, param, body }
    }

    fn into_node(self, alloc: Global) -> Result<Node, AllocError>
        ensures { IfOk result (λ closed. (closed ≡ catch_clause_node self) × Fits closed (One (Of class.CatchClause))) }
    {
        let CatchClause { span, param, body } = self;
        close_three::<class::CatchClause, _, _, _>(alloc, Kind::CatchClause, (span, param, body))
    }
}
