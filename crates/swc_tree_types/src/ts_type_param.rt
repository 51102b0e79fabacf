//! Printed by tools/print_table.py from tools/tree.txt.
ghost use Rattle.std.specs.Prelude.{◌≡◌, IfOk};
ghost use Rattle.swc_tree_node.specs.declared.kind.Class.TheVariants as class;
ghost use Rattle.swc_tree_node.specs.declared.slot.Slot.TheVariants.{One};
ghost use Rattle.swc_tree_node.specs.declared.slot.Content.TheVariants.{Node as Of};
ghost use Rattle.swc_tree_node.specs.Fits.{Fits};
ghost use Rattle.swc_tree_types.specs.Nodes.{ts_type_param_node};

use std::alloc::{AllocError, Global};
use swc_tree_handle::{Opened, Tree, class, clone_four, close_four, open_four};
use swc_tree_marks::{Ident, Span};
use swc_tree_node::{Kind, Node};

/// A parameter of an interface or of an alias.
#[derive(Debug, Drop, PartialEq, Eq)]
pub struct TsTypeParam {
    pub span: Span,
    pub name: Ident,
    pub constraint: Option<Tree<class::TsType>>,
    pub default: Option<Tree<class::TsType>>,
}

impl Clone for TsTypeParam {
    ghost is_clone = { λ it copy. copy ≡ it };

    fn clone(&self) -> Result<TsTypeParam, AllocError> {
        let (span, name, constraint, default) = clone_four(
            &self.span,
            &self.name,
            &self.constraint,
            &self.default,
        )?;
        Ok(TsTypeParam {
            span,
            name,
            constraint,
            default,
        })
    }
}

impl Opened<class::TsTypeParam> for TsTypeParam {
    ghost class = { class.TsTypeParam };

    ghost node = { ts_type_param_node };

    fn from_node(closed: Node) -> TsTypeParam
        requires { Fits closed (One (Of class.TsTypeParam)) }
        ensures { ts_type_param_node result ≡ closed }
    {
        let (span, name, constraint, default) = open_four::<class::TsTypeParam, _, _, _, _>(
            closed,
            Kind::TsTypeParam,
        );
        TsTypeParam {
            span,
            name,
            constraint,
            default,
        }
    }

    fn into_node(self, alloc: Global) -> Result<Node, AllocError>
        ensures { IfOk result (λ closed. (closed ≡ ts_type_param_node self) × Fits closed (One (Of class.TsTypeParam))) }
    {
        let TsTypeParam {
            span,
            name,
            constraint,
            default,
        } = self;
        close_four::<class::TsTypeParam, _, _, _, _>(
            alloc,
            Kind::TsTypeParam,
            (span, name, constraint, default),
        )
    }
}
