//! Printed by tools/print_table.py from tools/tree.txt.
ghost use Rattle.std.specs.Prelude.{◌≡◌, IfOk};
ghost use Rattle.swc_tree_node.specs.declared.kind.Class.TheVariants as class;
ghost use Rattle.swc_tree_node.specs.declared.slot.Slot.TheVariants.{One};
ghost use Rattle.swc_tree_node.specs.declared.slot.Content.TheVariants.{Node as Of};
ghost use Rattle.swc_tree_node.specs.Fits.{Fits};
ghost use Rattle.swc_tree_types.specs.Nodes.{ts_type_lit_node};

use std::alloc::{AllocError, Global};
use swc_tree_handle::{Opened, Trees, class, clone_two, close_two, open_two};
use swc_tree_marks::Span;
use swc_tree_node::{Kind, Node};

/// A type that is written out.
#[derive(Debug, Drop, PartialEq, Eq)]
pub struct TsTypeLit {
    pub span: Span,
    pub members: Trees<class::TsPropertySignature>,
}

impl Clone for TsTypeLit {
    ghost is_clone = { λ it copy. copy ≡ it };

    fn clone(&self) -> Result<TsTypeLit, AllocError> {
        let (span, members) = clone_two(&self.span, &self.members)?;
        Ok(TsTypeLit { span, members })
    }
}

impl Opened<class::TsTypeLit> for TsTypeLit {
    ghost class = { class.TsTypeLit };

    ghost node = { ts_type_lit_node };

    fn from_node(closed: Node) -> TsTypeLit
        requires { Fits closed (One (Of class.TsTypeLit)) }
        ensures { ts_type_lit_node result ≡ closed }
    {
        let (span, members) = open_two::<class::TsTypeLit, _, _>(closed, Kind::TsTypeLit);
        TsTypeLit { span, members }
    }

    fn into_node(self, alloc: Global) -> Result<Node, AllocError>
        ensures { IfOk result (λ closed. (closed ≡ ts_type_lit_node self) × Fits closed (One (Of class.TsTypeLit))) }
    {
        let TsTypeLit { span, members } = self;
        close_two::<class::TsTypeLit, _, _>(alloc, Kind::TsTypeLit, (span, members))
    }
}
