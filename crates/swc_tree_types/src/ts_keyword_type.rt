//! Printed by tools/print_table.py from tools/tree.txt.
ghost use Rattle.std.specs.Prelude.{◌≡◌, IfOk};
ghost use Rattle.swc_tree_node.specs.declared.kind.Class.TheVariants as class;
ghost use Rattle.swc_tree_node.specs.declared.slot.Slot.TheVariants.{One};
ghost use Rattle.swc_tree_node.specs.declared.slot.Content.TheVariants.{Node as Of};
ghost use Rattle.swc_tree_node.specs.Fits.{Fits};
ghost use Rattle.swc_tree_types.specs.Nodes.{ts_keyword_type_node};

use std::alloc::{AllocError, Global};
use swc_tree_handle::{Opened, class, clone_two, close_two, open_two};
use swc_tree_marks::{Atom, Span};
use swc_tree_node::{Kind, Node};

/// A type with a word for a name.
#[derive(Debug, Drop, PartialEq, Eq)]
pub struct TsKeywordType {
    pub span: Span,
    pub kind: Atom,
}

impl Clone for TsKeywordType {
    ghost is_clone = { λ it copy. copy ≡ it };

    fn clone(&self) -> Result<TsKeywordType, AllocError> {
        let (span, kind) = clone_two(&self.span, &self.kind)?;
        Ok(TsKeywordType { span, kind })
    }
}

impl Opened<class::TsKeywordType> for TsKeywordType {
    ghost class = { class.TsKeywordType };

    ghost node = { ts_keyword_type_node };

    fn from_node(closed: Node) -> TsKeywordType
        requires { Fits closed (One (Of class.TsKeywordType)) }
        ensures { ts_keyword_type_node result ≡ closed }
    {
        let (span, kind) = open_two::<class::TsKeywordType, _, _>(closed, Kind::TsKeywordType);
        TsKeywordType { span, kind }
    }

    fn into_node(self, alloc: Global) -> Result<Node, AllocError>
        ensures { IfOk result (λ closed. (closed ≡ ts_keyword_type_node self) × Fits closed (One (Of class.TsKeywordType))) }
    {
        let TsKeywordType { span, kind } = self;
        close_two::<class::TsKeywordType, _, _>(alloc, Kind::TsKeywordType, (span, kind))
    }
}
