//! Printed by tools/print_table.py from tools/tree.txt.
ghost use Rattle.std.specs.Prelude.{◌≡◌, IfOk};
ghost use Rattle.swc_tree_node.specs.declared.kind.Class.TheVariants as class;
ghost use Rattle.swc_tree_node.specs.declared.slot.Slot.TheVariants.{One};
ghost use Rattle.swc_tree_node.specs.declared.slot.Content.TheVariants.{Node as Of};
ghost use Rattle.swc_tree_node.specs.Fits.{Fits};
ghost use Rattle.swc_tree_statements.specs.Nodes.{using_decl_node};

use std::alloc::{AllocError, Global};
use swc_tree_handle::{Opened, Trees, class, clone_three, close_three, open_three};
use swc_tree_marks::Span;
use swc_tree_node::{Kind, Node};

/// Variables that are disposed of at the end of their scope.
#[derive(Debug, Drop, PartialEq, Eq)]
pub struct UsingDecl {
    pub span: Span,
    pub is_await: bool,
    pub decls: Trees<class::VarDeclarator>,
}

impl Clone for UsingDecl {
    ghost is_clone = { λ it copy. copy ≡ it };

    fn clone(&self) -> Result<UsingDecl, AllocError> {
        let (span, is_await, decls) = clone_three(&self.span, &self.is_await, &self.decls)?;
        Ok(UsingDecl {
            span,
            is_await,
            decls,
        })
    }
}

impl Opened<class::UsingDecl> for UsingDecl {
    ghost class = { class.UsingDecl };

    ghost node = { using_decl_node };

    fn from_node(closed: Node) -> UsingDecl
        requires { Fits closed (One (Of class.UsingDecl)) }
        ensures { using_decl_node result ≡ closed }
    {
        let (span, is_await, decls) = open_three::<class::UsingDecl, _, _, _>(
            closed,
            Kind::UsingDecl,
        );
        UsingDecl {
            span,
            is_await,
            decls,
        }
    }

    fn into_node(self, alloc: Global) -> Result<Node, AllocError>
        ensures { IfOk result (λ closed. (closed ≡ using_decl_node self) × Fits closed (One (Of class.UsingDecl))) }
    {
        let UsingDecl {
            span,
            is_await,
            decls,
        } = self;
        close_three::<class::UsingDecl, _, _, _>(alloc, Kind::UsingDecl, (span, is_await, decls))
    }
}
