//! Printed by tools/print_table.py from tools/tree.txt.
ghost use Rattle.std.specs.Prelude.{◌≡◌, IfOk};
ghost use Rattle.swc_tree_node.specs.declared.kind.Class.TheVariants as class;
ghost use Rattle.swc_tree_node.specs.declared.slot.Slot.TheVariants.{One};
ghost use Rattle.swc_tree_node.specs.declared.slot.Content.TheVariants.{Node as Of};
ghost use Rattle.swc_tree_node.specs.Fits.{Fits};
ghost use Rattle.swc_tree_types.specs.Nodes.{ts_qualified_name_node};

use std::alloc::{AllocError, Global};
use swc_tree_handle::{Opened, Tree, class, clone_three, close_three, open_three};
use swc_tree_leaves::IdentName;
use swc_tree_marks::Span;
use swc_tree_node::{Kind, Node};

/// A name in a namespace.
#[derive(Debug, Drop, PartialEq, Eq)]
pub struct TsQualifiedName {
    pub span: Span,
    pub left: Tree<class::TsEntityName>,
    pub right: IdentName,
}

impl Clone for TsQualifiedName {
    ghost is_clone = { λ it copy. copy ≡ it };

    fn clone(&self) -> Result<TsQualifiedName, AllocError> {
        let (span, left, right) = clone_three(&self.span, &self.left, &self.right)?;
        Ok(TsQualifiedName { span, left, right })
    }
}

impl Opened<class::TsQualifiedName> for TsQualifiedName {
    ghost class = { class.TsQualifiedName };

    ghost node = { ts_qualified_name_node };

    fn from_node(closed: Node) -> TsQualifiedName
        requires { Fits closed (One (Of class.TsQualifiedName)) }
        ensures { ts_qualified_name_node result ≡ closed }
    {
        let (span, left, right) = open_three::<class::TsQualifiedName, _, _, _>(
            closed,
            Kind::TsQualifiedName,
        );
        TsQualifiedName { span, left, right }
    }

    fn into_node(self, alloc: Global) -> Result<Node, AllocError>
        ensures { IfOk result (λ closed. (closed ≡ ts_qualified_name_node self) × Fits closed (One (Of class.TsQualifiedName))) }
    {
        let TsQualifiedName { span, left, right } = self;
        close_three::<class::TsQualifiedName, _, _, _>(
            alloc,
            Kind::TsQualifiedName,
            (span, left, right),
        )
    }
}
