//! Printed by tools/print_table.py from tools/tree.txt.
ghost use Rattle.std.specs.Prelude.{◌≡◌, IfOk};
ghost use Rattle.swc_tree_node.specs.declared.kind.Class.TheVariants as class;
ghost use Rattle.swc_tree_node.specs.declared.slot.Slot.TheVariants.{One};
ghost use Rattle.swc_tree_node.specs.declared.slot.Content.TheVariants.{Node as Of};
ghost use Rattle.swc_tree_node.specs.Fits.{Fits};
ghost use Rattle.swc_tree_operations.specs.Nodes.{tagged_tpl_node};

use std::alloc::{AllocError, Global};
use swc_tree_handle::{Opened, Tree, class, clone_three, close_three, open_three};
use swc_tree_marks::Span;
use swc_tree_node::{Kind, Node};

/// A template with a tag (ECMA-262, MemberExpression).
#[derive(Debug, Drop, PartialEq, Eq)]
pub struct TaggedTpl {
    pub span: Span,
    pub tag: Tree<class::Expr>,
    pub tpl: Tree<class::Tpl>,
}

impl Clone for TaggedTpl {
    ghost is_clone = { λ it copy. copy ≡ it };

    fn clone(&self) -> Result<TaggedTpl, AllocError> {
        let (span, tag, tpl) = clone_three(&self.span, &self.tag, &self.tpl)?;
        Ok(TaggedTpl { span, tag, tpl })
    }
}

impl Opened<class::TaggedTpl> for TaggedTpl {
    ghost class = { class.TaggedTpl };

    ghost node = { tagged_tpl_node };

    fn from_node(closed: Node) -> TaggedTpl
        requires { Fits closed (One (Of class.TaggedTpl)) }
        ensures { tagged_tpl_node result ≡ closed }
    {
        let (span, tag, tpl) = open_three::<class::TaggedTpl, _, _, _>(closed, Kind::TaggedTpl);
        TaggedTpl { span, tag, tpl }
    }

    fn into_node(self, alloc: Global) -> Result<Node, AllocError>
        ensures { IfOk result (λ closed. (closed ≡ tagged_tpl_node self) × Fits closed (One (Of class.TaggedTpl))) }
    {
        let TaggedTpl { span, tag, tpl } = self;
        close_three::<class::TaggedTpl, _, _, _>(alloc, Kind::TaggedTpl, (span, tag, tpl))
    }
}
