//! Printed by tools/print_table.py from tools/tree.txt.
ghost use Rattle.std.specs.Prelude.{◌≡◌, IfOk};
ghost use Rattle.swc_tree_node.specs.declared.kind.Class.TheVariants as class;
ghost use Rattle.swc_tree_node.specs.declared.slot.Slot.TheVariants.{One};
ghost use Rattle.swc_tree_node.specs.declared.slot.Content.TheVariants.{Node as Of};
ghost use Rattle.swc_tree_node.specs.Fits.{Fits};
ghost use Rattle.swc_tree_modules.specs.Nodes.{script_node};

use std::alloc::{AllocError, Global};
use swc_tree_handle::{Opened, Trees, class, clone_three, close_three, open_three};
use swc_tree_marks::{Atom, Span};
use swc_tree_node::{Kind, Node};

/// A program of the goal Script (ECMA-262, Script).
#[derive(Debug, Drop, PartialEq, Eq)]
pub struct Script {
    pub span: Span,
    pub body: Trees<class::Stmt>,
    pub shebang: Option<Atom>,
}

impl Clone for Script {
    ghost is_clone = { λ it copy. copy ≡ it };

    fn clone(&self) -> Result<Script, AllocError> {
        let (span, body, shebang) = clone_three(&self.span, &self.body, &self.shebang)?;
        Ok(Script {
            span,
            body,
            shebang,
        })
    }
}

impl Opened<class::Script> for Script {
    ghost class = { class.Script };

    ghost node = { script_node };

    fn from_node(closed: Node) -> Script
        requires { Fits closed (One (Of class.Script)) }
        ensures { script_node result ≡ closed }
    {
        let (span, body, shebang) = open_three::<class::Script, _, _, _>(closed, Kind::Script);
        Script {
            span,
            body,
            shebang,
        }
    }

    fn into_node(self, alloc: Global) -> Result<Node, AllocError>
        ensures { IfOk result (λ closed. (closed ≡ script_node self) × Fits closed (One (Of class.Script))) }
    {
        let Script {
            span,
            body,
            shebang,
        } = self;
        close_three::<class::Script, _, _, _>(alloc, Kind::Script, (span, body, shebang))
    }
}
