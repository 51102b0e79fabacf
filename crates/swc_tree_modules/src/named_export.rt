//! Printed by tools/print_table.py from tools/tree.txt.
ghost use Rattle.std.specs.Prelude.{◌≡◌, IfOk};
ghost use Rattle.swc_tree_node.specs.declared.kind.Class.TheVariants as class;
ghost use Rattle.swc_tree_node.specs.declared.slot.Slot.TheVariants.{One};
ghost use Rattle.swc_tree_node.specs.declared.slot.Content.TheVariants.{Node as Of};
ghost use Rattle.swc_tree_node.specs.Fits.{Fits};
ghost use Rattle.swc_tree_modules.specs.Nodes.{named_export_node};

use std::alloc::{AllocError, Global};
use swc_tree_handle::{Opened, Pairs, Trees, class, clone_four, close_four, open_four};
use swc_tree_leaves::{OptionalStr, Str};
use swc_tree_marks::Span;
use swc_tree_node::{Kind, Node};

/// An export list, of this module or of another (ECMA-262, NamedExports and ExportFromClause).
#[derive(Debug, Drop, PartialEq, Eq)]
pub struct NamedExport {
    pub span: Span,
    pub specifiers: Trees<class::ExportSpecifier>,
    pub src: Option<Str>,
    pub with_: Option<Pairs>,
}

impl Clone for NamedExport {
    ghost is_clone = { λ it copy. copy ≡ it };

    fn clone(&self) -> Result<NamedExport, AllocError> {
        let (span, specifiers, src, with_) = clone_four(
            &self.span,
            &self.specifiers,
            &self.src,
            &self.with_,
        )?;
        Ok(NamedExport {
            span,
            specifiers,
            src,
            with_,
        })
    }
}

impl Opened<class::NamedExport> for NamedExport {
    ghost class = { class.NamedExport };

    ghost node = { named_export_node };

    fn from_node(closed: Node) -> NamedExport
        requires { Fits closed (One (Of class.NamedExport)) }
        ensures { named_export_node result ≡ closed }
    {
        let (span, specifiers, src, with_) = open_four::<class::NamedExport, _, _, OptionalStr, _>(
            closed,
            Kind::NamedExport,
        );
        NamedExport {
            span,
            specifiers,
            src: src.held,
            with_,
        }
    }

    fn into_node(self, alloc: Global) -> Result<Node, AllocError>
        ensures { IfOk result (λ closed. (closed ≡ named_export_node self) × Fits closed (One (Of class.NamedExport))) }
    {
        let NamedExport {
            span,
            specifiers,
            src,
            with_,
        } = self;
        close_four::<class::NamedExport, _, _, OptionalStr, _>(
            alloc,
            Kind::NamedExport,
            (span, specifiers, OptionalStr { held: src }, with_),
        )
    }
}
