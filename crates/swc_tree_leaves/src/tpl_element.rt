//! Printed by tools/print_table.py from tools/tree.txt.
ghost use Rattle.std.specs.Prelude.{◌≡◌, IfOk};
ghost use Rattle.swc_tree_node.specs.declared.kind.Class.TheVariants as class;
ghost use Rattle.swc_tree_node.specs.declared.slot.Slot.TheVariants.{One};
ghost use Rattle.swc_tree_node.specs.declared.slot.Content.TheVariants.{Node as Of};
ghost use Rattle.swc_tree_node.specs.Fits.{Fits};
ghost use Rattle.swc_tree_leaves.specs.Nodes.{tpl_element_node};

use std::alloc::{AllocError, Global};
use swc_tree_handle::{Opened, class, clone_four, close_four, open_four};
use swc_tree_marks::{Atom, Span};
use swc_tree_node::{Kind, Node};

/// A text of a template: its value where it has one, and how it is written (ECMA-262, TemplateCharacters).
#[derive(Debug, Drop, PartialEq, Eq)]
pub struct TplElement {
    pub span: Span,
    pub tail: bool,
    pub cooked: Option<Atom>,
    pub raw: Atom,
}

impl Clone for TplElement {
    ghost is_clone = { λ it copy. copy ≡ it };

    fn clone(&self) -> Result<TplElement, AllocError> {
        let (span, tail, cooked, raw) = clone_four(
            &self.span,
            &self.tail,
            &self.cooked,
            &self.raw,
        )?;
        Ok(TplElement {
            span,
            tail,
            cooked,
            raw,
        })
    }
}

impl Opened<class::TplElement> for TplElement {
    ghost class = { class.TplElement };

    ghost node = { tpl_element_node };

    fn from_node(closed: Node) -> TplElement
        requires { Fits closed (One (Of class.TplElement)) }
        ensures { tpl_element_node result ≡ closed }
    {
        let (span, tail, cooked, raw) = open_four::<class::TplElement, _, _, _, _>(
            closed,
            Kind::TplElement,
        );
        TplElement {
            span,
            tail,
            cooked,
            raw,
        }
    }

    fn into_node(self, alloc: Global) -> Result<Node, AllocError>
        ensures { IfOk result (λ closed. (closed ≡ tpl_element_node self) × Fits closed (One (Of class.TplElement))) }
    {
        let TplElement {
            span,
            tail,
            cooked,
            raw,
        } = self;
        close_four::<class::TplElement, _, _, _, _>(
            alloc,
            Kind::TplElement,
            (span, tail, cooked, raw),
        )
    }
}
