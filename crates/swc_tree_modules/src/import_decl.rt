//! Printed by tools/print_table.py from tools/tree.txt.
ghost use Rattle.std.specs.Prelude.{◌≡◌, IfOk};
ghost use Rattle.swc_tree_node.specs.declared.kind.Class.TheVariants as class;
ghost use Rattle.swc_tree_node.specs.declared.slot.Slot.TheVariants.{One};
ghost use Rattle.swc_tree_node.specs.declared.slot.Content.TheVariants.{Node as Of};
ghost use Rattle.swc_tree_node.specs.Fits.{Fits};
ghost use Rattle.swc_tree_modules.specs.Nodes.{import_decl_node};

use std::alloc::{AllocError, Global};
use swc_tree_handle::{Opened, Pairs, Trees, class, clone_four, close_four, open_four};
use swc_tree_leaves::Str;
use swc_tree_marks::Span;
use swc_tree_node::{Kind, Node};

/// An import (ECMA-262, ImportDeclaration).
#[derive(Debug, Drop, PartialEq, Eq)]
pub struct ImportDecl {
    pub span: Span,
    pub specifiers: Trees<class::ImportSpecifier>,
    pub src: Str,
    pub with_: Option<Pairs>,
}

impl Clone for ImportDecl {
    ghost is_clone = { λ it copy. copy ≡ it };

    fn clone(&self) -> Result<ImportDecl, AllocError> {
        let (span, specifiers, src, with_) = clone_four(
            &self.span,
            &self.specifiers,
            &self.src,
            &self.with_,
        )?;
        Ok(ImportDecl {
            span,
            specifiers,
            src,
            with_,
        })
    }
}

impl Opened<class::ImportDecl> for ImportDecl {
    ghost class = { class.ImportDecl };

    ghost node = { import_decl_node };

    fn from_node(closed: Node) -> ImportDecl
        requires { Fits closed (One (Of class.ImportDecl)) }
        ensures { import_decl_node result ≡ closed }
    {
        let (span, specifiers, src, with_) = open_four::<class::ImportDecl, _, _, _, _>(
            closed,
            Kind::ImportDecl,
        );
        ImportDecl {
            span,
            specifiers,
            src,
            with_,
        }
    }

    fn into_node(self, alloc: Global) -> Result<Node, AllocError>
        ensures { IfOk result (λ closed. (closed ≡ import_decl_node self) × Fits closed (One (Of class.ImportDecl))) }
    {
        let ImportDecl {
            span,
            specifiers,
            src,
            with_,
        } = self;
        close_four::<class::ImportDecl, _, _, _, _>(
            alloc,
            Kind::ImportDecl,
            (span, specifiers, src, with_),
        )
    }
}
