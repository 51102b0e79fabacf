//! Printed by tools/print_table.py from tools/tree.txt.
ghost use Rattle.std.specs.Prelude.{◌≡◌, IfOk};
ghost use Rattle.swc_tree_node.specs.declared.kind.Class.TheVariants as class;
ghost use Rattle.swc_tree_node.specs.declared.slot.Slot.TheVariants.{One};
ghost use Rattle.swc_tree_node.specs.declared.slot.Content.TheVariants.{Node as Of};
ghost use Rattle.swc_tree_node.specs.Fits.{Fits};
ghost use Rattle.swc_tree_leaves.specs.Nodes.{import_node};

use std::alloc::{AllocError, Global};
use swc_tree_handle::{Opened, class, close_one, open_one};
use swc_tree_marks::Span;
use swc_tree_node::{Kind, Node};

/// `import` as it is called (ECMA-262, ImportCall).
#[derive(Clone, Debug, Drop, PartialEq, Eq)]
pub struct Import {
    pub span: Span,
}

impl Opened<class::Import> for Import {
    ghost class = { class.Import };

    ghost node = { import_node };

    fn from_node(closed: Node) -> Import
        requires { Fits closed (One (Of class.Import)) }
        ensures { import_node result ≡ closed }
    {
        let span = open_one::<class::Import, _>(closed, Kind::Import);
        Import { span }
    }

    fn into_node(self, alloc: Global) -> Result<Node, AllocError>
        ensures { IfOk result (λ closed. (closed ≡ import_node self) × Fits closed (One (Of class.Import))) }
    {
        let Import { span } = self;
        close_one::<class::Import, _>(alloc, Kind::Import, span)
    }
}
