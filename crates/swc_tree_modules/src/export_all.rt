//! Printed by tools/print_table.py from tools/tree.txt.
ghost use Rattle.std.specs.Prelude.{◌≡◌, IfOk};
ghost use Rattle.swc_tree_node.specs.declared.kind.Class.TheVariants as class;
ghost use Rattle.swc_tree_node.specs.declared.slot.Slot.TheVariants.{One};
ghost use Rattle.swc_tree_node.specs.declared.slot.Content.TheVariants.{Node as Of};
ghost use Rattle.swc_tree_node.specs.Fits.{Fits};
ghost use Rattle.swc_tree_modules.specs.Nodes.{export_all_node};

use std::alloc::{AllocError, Global};
use swc_tree_handle::{Opened, Pairs, class, clone_three, close_three, open_three};
use swc_tree_leaves::Str;
use swc_tree_marks::Span;
use swc_tree_node::{Kind, Node};

/// All that another module exports (ECMA-262, ExportFromClause).
#[derive(Debug, Drop, PartialEq, Eq)]
pub struct ExportAll {
    pub span: Span,
    pub src: Str,
    pub with_: Option<Pairs>,
}

impl Clone for ExportAll {
    ghost is_clone = { λ it copy. copy ≡ it };

    fn clone(&self) -> Result<ExportAll, AllocError> {
        let (span, src, with_) = clone_three(&self.span, &self.src, &self.with_)?;
        Ok(ExportAll { span, src, with_ })
    }
}

impl Opened<class::ExportAll> for ExportAll {
    ghost class = { class.ExportAll };

    ghost node = { export_all_node };

    fn from_node(closed: Node) -> ExportAll
        requires { Fits closed (One (Of class.ExportAll)) }
        ensures { export_all_node result ≡ closed }
    {
        let (span, src, with_) = open_three::<class::ExportAll, _, _, _>(closed, Kind::ExportAll);
        ExportAll { span, src, with_ }
    }

    fn into_node(self, alloc: Global) -> Result<Node, AllocError>
        ensures { IfOk result (λ closed. (closed ≡ export_all_node self) × Fits closed (One (Of class.ExportAll))) }
    {
        let ExportAll { span, src, with_ } = self;
        close_three::<class::ExportAll, _, _, _>(alloc, Kind::ExportAll, (span, src, with_))
    }
}
