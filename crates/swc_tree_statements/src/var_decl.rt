//! Printed by tools/print_table.py from tools/tree.txt.
ghost use Rattle.std.specs.Prelude.{◌≡◌, IfOk};
ghost use Rattle.swc_tree_node.specs.declared.kind.Class.TheVariants as class;
ghost use Rattle.swc_tree_node.specs.declared.slot.Slot.TheVariants.{One};
ghost use Rattle.swc_tree_node.specs.declared.slot.Content.TheVariants.{Node as Of};
ghost use Rattle.swc_tree_node.specs.Fits.{Fits};
ghost use Rattle.swc_tree_statements.specs.Nodes.{var_decl_node};

use crate::var_decl_kind::VarDeclKind;
use std::alloc::{AllocError, Global};
use swc_tree_handle::{Opened, Trees, class, clone_three, close_three, open_three};
use swc_tree_marks::Span;
use swc_tree_node::{Kind, Node};

/// Variables that one keyword declares (ECMA-262, VariableStatement and LexicalDeclaration).
#[derive(Debug, Drop, PartialEq, Eq)]
pub struct VarDecl {
    pub span: Span,
    pub kind: VarDeclKind,
    pub decls: Trees<class::VarDeclarator>,
}

impl Clone for VarDecl {
    ghost is_clone = { λ it copy. copy ≡ it };

    fn clone(&self) -> Result<VarDecl, AllocError> {
        let (span, kind, decls) = clone_three(&self.span, &self.kind, &self.decls)?;
        Ok(VarDecl { span, kind, decls })
    }
}

impl Opened<class::VarDecl> for VarDecl {
    ghost class = { class.VarDecl };

    ghost node = { var_decl_node };

    fn from_node(closed: Node) -> VarDecl
        requires { Fits closed (One (Of class.VarDecl)) }
        ensures { var_decl_node result ≡ closed }
    {
        let (span, kind, decls) = open_three::<class::VarDecl, _, _, _>(closed, Kind::VarDecl);
        VarDecl { span, kind, decls }
    }

    fn into_node(self, alloc: Global) -> Result<Node, AllocError>
        ensures { IfOk result (λ closed. (closed ≡ var_decl_node self) × Fits closed (One (Of class.VarDecl))) }
    {
        let VarDecl { span, kind, decls } = self;
        close_three::<class::VarDecl, _, _, _>(alloc, Kind::VarDecl, (span, kind, decls))
    }
}
