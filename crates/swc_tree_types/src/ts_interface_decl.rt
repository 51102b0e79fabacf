//! Printed by tools/print_table.py from tools/tree.txt.
ghost use Rattle.std.specs.Prelude.{◌≡◌, IfOk};
ghost use Rattle.swc_tree_node.specs.declared.kind.Class.TheVariants as class;
ghost use Rattle.swc_tree_node.specs.declared.slot.Slot.TheVariants.{One};
ghost use Rattle.swc_tree_node.specs.declared.slot.Content.TheVariants.{Node as Of};
ghost use Rattle.swc_tree_node.specs.Fits.{Fits};
ghost use Rattle.swc_tree_types.specs.Nodes.{ts_interface_decl_node};

use std::alloc::{AllocError, Global};
use swc_tree_handle::{Opened, Trees, class, clone_five, close_five, open_five};
use swc_tree_marks::{Ident, Span};
use swc_tree_node::{Kind, Node};

/// An interface: a type of named members.
#[derive(Debug, Drop, PartialEq, Eq)]
pub struct TsInterfaceDecl {
    pub span: Span,
    pub id: Ident,
    pub type_params: Trees<class::TsTypeParam>,
    pub extends: Trees<class::TsTypeRef>,
    pub body: Trees<class::TsPropertySignature>,
}

impl Clone for TsInterfaceDecl {
    ghost is_clone = { λ it copy. copy ≡ it };

    fn clone(&self) -> Result<TsInterfaceDecl, AllocError> {
        let (span, id, type_params, extends, body) = clone_five(
            &self.span,
            &self.id,
            &self.type_params,
            &self.extends,
            &self.body,
        )?;
        Ok(TsInterfaceDecl {
            span,
            id,
            type_params,
            extends,
            body,
        })
    }
}

impl Opened<class::TsInterfaceDecl> for TsInterfaceDecl {
    ghost class = { class.TsInterfaceDecl };

    ghost node = { ts_interface_decl_node };

    fn from_node(closed: Node) -> TsInterfaceDecl
        requires { Fits closed (One (Of class.TsInterfaceDecl)) }
        ensures { ts_interface_decl_node result ≡ closed }
    {
        let (span, id, type_params, extends, body) = open_five::<
            class::TsInterfaceDecl,
            _,
            _,
            _,
            _,
            _,
        >(closed, Kind::TsInterfaceDecl);
        TsInterfaceDecl {
            span,
            id,
            type_params,
            extends,
            body,
        }
    }

    fn into_node(self, alloc: Global) -> Result<Node, AllocError>
        ensures { IfOk result (λ closed. (closed ≡ ts_interface_decl_node self) × Fits closed (One (Of class.TsInterfaceDecl))) }
    {
        let TsInterfaceDecl {
            span,
            id,
            type_params,
            extends,
            body,
        } = self;
        close_five::<class::TsInterfaceDecl, _, _, _, _, _>(
            alloc,
            Kind::TsInterfaceDecl,
            (span, id, type_params, extends, body),
        )
    }
}
