//! Printed by tools/print_table.py from tools/tree.txt.
ghost use Rattle.std.specs.Prelude.{◌≡◌, IfOk};
ghost use Rattle.swc_tree_node.specs.declared.kind.Class.TheVariants as class;
ghost use Rattle.swc_tree_node.specs.declared.slot.Slot.TheVariants.{One};
ghost use Rattle.swc_tree_node.specs.declared.slot.Content.TheVariants.{Node as Of};
ghost use Rattle.swc_tree_node.specs.Fits.{Fits};
ghost use Rattle.swc_tree_types.specs.Nodes.{ts_type_ref_node};

use std::alloc::{AllocError, Global};
use swc_tree_handle::{Opened, Tree, Trees, class, clone_three, close_three, open_three};
use swc_tree_marks::Span;
use swc_tree_node::{Kind, Node};

/// A type by its name, with what stands for its parameters.
#[derive(Debug, Drop, PartialEq, Eq)]
pub struct TsTypeRef {
    pub span: Span,
    pub name: Tree<class::TsEntityName>,
    pub type_args: Trees<class::TsType>,
}

impl Clone for TsTypeRef {
    ghost is_clone = { λ it copy. copy ≡ it };

    fn clone(&self) -> Result<TsTypeRef, AllocError> {
        let (span, name, type_args) = clone_three(&self.span, &self.name, &self.type_args)?;
        Ok(TsTypeRef {
            span,
            name,
            type_args,
        })
    }
}

impl Opened<class::TsTypeRef> for TsTypeRef {
    ghost class = { class.TsTypeRef };

    ghost node = { ts_type_ref_node };

    fn from_node(closed: Node) -> TsTypeRef
        requires { Fits closed (One (Of class.TsTypeRef)) }
        ensures { ts_type_ref_node result ≡ closed }
    {
        let (span, name, type_args) = open_three::<class::TsTypeRef, _, _, _>(
            closed,
            Kind::TsTypeRef,
        );
        TsTypeRef {
            span,
            name,
            type_args,
        }
    }

    fn into_node(self, alloc: Global) -> Result<Node, AllocError>
        ensures { IfOk result (λ closed. (closed ≡ ts_type_ref_node self) × Fits closed (One (Of class.TsTypeRef))) }
    {
        let TsTypeRef {
            span,
            name,
            type_args,
        } = self;
        close_three::<class::TsTypeRef, _, _, _>(alloc, Kind::TsTypeRef, (span, name, type_args))
    }
}
