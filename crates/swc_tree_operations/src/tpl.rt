//! Printed by tools/print_table.py from tools/tree.txt.
ghost use Rattle.std.specs.Prelude.{◌≡◌, IfOk};
ghost use Rattle.swc_tree_node.specs.declared.kind.Class.TheVariants as class;
ghost use Rattle.swc_tree_node.specs.declared.slot.Slot.TheVariants.{One};
ghost use Rattle.swc_tree_node.specs.declared.slot.Content.TheVariants.{Node as Of};
ghost use Rattle.swc_tree_node.specs.Fits.{Fits};
ghost use Rattle.swc_tree_operations.specs.Nodes.{tpl_node};

use std::alloc::{AllocError, Global};
use swc_tree_handle::{Opened, Trees, class, clone_three, close_three, open_three};
use swc_tree_marks::Span;
use swc_tree_node::{Kind, Node};

/// A template: its expressions, and the texts round them (ECMA-262, TemplateLiteral).
#[derive(Debug, Drop, PartialEq, Eq)]
pub struct Tpl {
    pub span: Span,
    pub exprs: Trees<class::Expr>,
    pub quasis: Trees<class::TplElement>,
}

impl Clone for Tpl {
    ghost is_clone = { λ it copy. copy ≡ it };

    fn clone(&self) -> Result<Tpl, AllocError> {
        let (span, exprs, quasis) = clone_three(&self.span, &self.exprs, &self.quasis)?;
        Ok(Tpl {
            span,
            exprs,
            quasis,
        })
    }
}

impl Opened<class::Tpl> for Tpl {
    ghost class = { class.Tpl };

    ghost node = { tpl_node };

    fn from_node(closed: Node) -> Tpl
        requires { Fits closed (One (Of class.Tpl)) }
        ensures { tpl_node result ≡ closed }
    {
        let (span, exprs, quasis) = open_three::<class::Tpl, _, _, _>(closed, Kind::Tpl);
        Tpl {
            span,
            exprs,
            quasis,
        }
    }

    fn into_node(self, alloc: Global) -> Result<Node, AllocError>
        ensures { IfOk result (λ closed. (closed ≡ tpl_node self) × Fits closed (One (Of class.Tpl))) }
    {
        let Tpl {
            span,
            exprs,
            quasis,
        } = self;
        close_three::<class::Tpl, _, _, _>(alloc, Kind::Tpl, (span, exprs, quasis))
    }
}
