//! Printed by tools/print_table.py from tools/tree.txt.
ghost use Rattle.std.specs.Prelude.{◌≡◌, IfOk};
ghost use Rattle.swc_tree_node.specs.declared.kind.Class.TheVariants as class;
ghost use Rattle.swc_tree_node.specs.declared.slot.Slot.TheVariants.{One};
ghost use Rattle.swc_tree_node.specs.declared.slot.Content.TheVariants.{Node as Of};
ghost use Rattle.swc_tree_node.specs.Fits.{Fits};
ghost use Rattle.swc_tree_types.specs.Nodes.{ts_module_decl_node};

use std::alloc::{AllocError, Global};
use swc_tree_handle::{Opened, Trees, class, clone_three, close_three, open_three};
use swc_tree_marks::{Ident, Span};
use swc_tree_node::{Kind, Node};

/// A namespace: items under a name.
#[derive(Debug, Drop, PartialEq, Eq)]
pub struct TsModuleDecl {
    pub span: Span,
    pub id: Ident,
    pub body: Trees<class::ModuleItem>,
}

impl Clone for TsModuleDecl {
    ghost is_clone = { λ it copy. copy ≡ it };

    fn clone(&self) -> Result<TsModuleDecl, AllocError> {
        let (span, id, body) = clone_three(&self.span, &self.id, &self.body)?;
        Ok(TsModuleDecl { span, id, body })
    }
}

impl Opened<class::TsModuleDecl> for TsModuleDecl {
    ghost class = { class.TsModuleDecl };

    ghost node = { ts_module_decl_node };

    fn from_node(closed: Node) -> TsModuleDecl
        requires { Fits closed (One (Of class.TsModuleDecl)) }
        ensures { ts_module_decl_node result ≡ closed }
    {
        let (span, id, body) = open_three::<class::TsModuleDecl, _, _, _>(
            closed,
            Kind::TsModuleDecl,
        );
        TsModuleDecl { span, id, body }
    }

    fn into_node(self, alloc: Global) -> Result<Node, AllocError>
        ensures { IfOk result (λ closed. (closed ≡ ts_module_decl_node self) × Fits closed (One (Of class.TsModuleDecl))) }
    {
        let TsModuleDecl { span, id, body } = self;
        close_three::<class::TsModuleDecl, _, _, _>(alloc, Kind::TsModuleDecl, (span, id, body))
    }
}
