//! Printed by tools/print_table.py from tools/tree.txt.
ghost use Rattle.std.specs.Prelude.{◌≡◌, IfOk};
ghost use Rattle.swc_tree_node.specs.declared.kind.Class.TheVariants as class;
ghost use Rattle.swc_tree_node.specs.declared.slot.Slot.TheVariants.{One};
ghost use Rattle.swc_tree_node.specs.declared.slot.Content.TheVariants.{Node as Of};
ghost use Rattle.swc_tree_node.specs.Fits.{Fits};
ghost use Rattle.swc_tree_types.specs.Nodes.{ts_type_alias_decl_node};

use std::alloc::{AllocError, Global};
use swc_tree_handle::{Opened, Tree, Trees, class, clone_four, close_four, open_four};
use swc_tree_marks::{Ident, Span};
use swc_tree_node::{Kind, Node};

/// A name for a type.
#[derive(Debug, Drop, PartialEq, Eq)]
pub struct TsTypeAliasDecl {
    pub span: Span,
    pub id: Ident,
    pub type_params: Trees<class::TsTypeParam>,
    pub type_ann: Tree<class::TsType>,
}

impl Clone for TsTypeAliasDecl {
    ghost is_clone = { λ it copy. copy ≡ it };

    fn clone(&self) -> Result<TsTypeAliasDecl, AllocError> {
        let (span, id, type_params, type_ann) = clone_four(
            &self.span,
            &self.id,
            &self.type_params,
            &self.type_ann,
        )?;
        Ok(TsTypeAliasDecl {
            span,
            id,
            type_params,
            type_ann,
        })
    }
}

impl Opened<class::TsTypeAliasDecl> for TsTypeAliasDecl {
    ghost class = { class.TsTypeAliasDecl };

    ghost node = { ts_type_alias_decl_node };

    fn from_node(closed: Node) -> TsTypeAliasDecl
        requires { Fits closed (One (Of class.TsTypeAliasDecl)) }
        ensures { ts_type_alias_decl_node result ≡ closed }
    {
        let (span, id, type_params, type_ann) = open_four::<class::TsTypeAliasDecl, _, _, _, _>(
            closed,
            Kind::TsTypeAliasDecl,
        );
        TsTypeAliasDecl {
            span,
            id,
            type_params,
            type_ann,
        }
    }

    fn into_node(self, alloc: Global) -> Result<Node, AllocError>
        ensures { IfOk result (λ closed. (closed ≡ ts_type_alias_decl_node self) × Fits closed (One (Of class.TsTypeAliasDecl))) }
    {
        let TsTypeAliasDecl {
            span,
            id,
            type_params,
            type_ann,
        } = self;
        close_four::<class::TsTypeAliasDecl, _, _, _, _>(
            alloc,
            Kind::TsTypeAliasDecl,
            (span, id, type_params, type_ann),
        )
    }
}
