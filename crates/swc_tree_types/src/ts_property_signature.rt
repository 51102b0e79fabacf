//! Printed by tools/print_table.py from tools/tree.txt.
ghost use Rattle.std.specs.Prelude.{◌≡◌, IfOk};
ghost use Rattle.swc_tree_node.specs.declared.kind.Class.TheVariants as class;
ghost use Rattle.swc_tree_node.specs.declared.slot.Slot.TheVariants.{One};
ghost use Rattle.swc_tree_node.specs.declared.slot.Content.TheVariants.{Node as Of};
ghost use Rattle.swc_tree_node.specs.Fits.{Fits};
ghost use Rattle.swc_tree_types.specs.Nodes.{ts_property_signature_node};

use std::alloc::{AllocError, Global};
use swc_tree_handle::{Opened, Tree, class, clone_four, close_four, open_four};
use swc_tree_leaves::IdentName;
use swc_tree_marks::Span;
use swc_tree_node::{Kind, Node};

/// A named member of a type.
#[derive(Debug, Drop, PartialEq, Eq)]
pub struct TsPropertySignature {
    pub span: Span,
    pub key: IdentName,
    pub optional: bool,
    pub type_ann: Tree<class::TsType>,
}

impl Clone for TsPropertySignature {
    ghost is_clone = { λ it copy. copy ≡ it };

    fn clone(&self) -> Result<TsPropertySignature, AllocError> {
        let (span, key, optional, type_ann) = clone_four(
            &self.span,
            &self.key,
            &self.optional,
            &self.type_ann,
        )?;
        Ok(TsPropertySignature {
            span,
            key,
            optional,
            type_ann,
        })
    }
}

impl Opened<class::TsPropertySignature> for TsPropertySignature {
    ghost class = { class.TsPropertySignature };

    ghost node = { ts_property_signature_node };

    fn from_node(closed: Node) -> TsPropertySignature
        requires { Fits closed (One (Of class.TsPropertySignature)) }
        ensures { ts_property_signature_node result ≡ closed }
    {
        let (span, key, optional, type_ann) = open_four::<class::TsPropertySignature, _, _, _, _>(
            closed,
            Kind::TsPropertySignature,
        );
        TsPropertySignature {
            span,
            key,
            optional,
            type_ann,
        }
    }

    fn into_node(self, alloc: Global) -> Result<Node, AllocError>
        ensures { IfOk result (λ closed. (closed ≡ ts_property_signature_node self) × Fits closed (One (Of class.TsPropertySignature))) }
    {
        let TsPropertySignature {
            span,
            key,
            optional,
            type_ann,
        } = self;
        close_four::<class::TsPropertySignature, _, _, _, _>(
            alloc,
            Kind::TsPropertySignature,
            (span, key, optional, type_ann),
        )
    }
}
