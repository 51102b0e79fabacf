//! Printed by tools/print_table.py from tools/tree.txt.
ghost use Rattle.std.specs.Prelude.{◌≡◌, IfOk};
ghost use Rattle.swc_tree_node.specs.declared.kind.Class.TheVariants as class;
ghost use Rattle.swc_tree_node.specs.declared.slot.Slot.TheVariants.{One};
ghost use Rattle.swc_tree_node.specs.declared.slot.Content.TheVariants.{Node as Of};
ghost use Rattle.swc_tree_node.specs.Fits.{Fits};
ghost use Rattle.swc_tree_leaves.specs.Nodes.{super_node};

use std::alloc::{AllocError, Global};
use swc_tree_handle::{Opened, Place, class, close_one, open_one};
use swc_tree_marks::Span;
use swc_tree_node::{Kind, Node};

/// `super` as it is called or read (ECMA-262, SuperCall and SuperProperty).
#[derive(Clone, Debug, Drop, PartialEq, Eq)]
pub struct Super {
    pub span: Span,
}

impl Opened<class::Super> for Super {
    ghost class = { class.Super };

    ghost node = { super_node };

    fn from_node(closed: Node) -> Super
        requires { Fits closed (One (Of class.Super)) }
        ensures { super_node result ≡ closed }
    {
        let span = open_one::<class::Super, _>(closed, Kind::Super);
        Super { span }
    }

    fn into_node(self, alloc: Global) -> Result<Node, AllocError>
        ensures { IfOk result (λ closed. (closed ≡ super_node self) × Fits closed (One (Of class.Super))) }
    {
        let Super { span } = self;
        close_one::<class::Super, _>(alloc, Kind::Super, span)
    }
}

impl Place for Super {
    ghost slot = { One (Of class.Super) };

    ghost node = { super_node };

    fn taken(closed: Node) -> Super {
        Super::from_node(closed)
    }

    fn given(self, alloc: Global) -> Result<Node, AllocError> {
        self.into_node(alloc)
    }
}
