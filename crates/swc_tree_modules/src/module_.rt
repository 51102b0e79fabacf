//! Printed by tools/print_table.py from tools/tree.txt.
ghost use Rattle.std.specs.Prelude.{◌≡◌, IfOk};
ghost use Rattle.swc_tree_node.specs.declared.kind.Class.TheVariants as class;
ghost use Rattle.swc_tree_node.specs.declared.slot.Slot.TheVariants.{One};
ghost use Rattle.swc_tree_node.specs.declared.slot.Content.TheVariants.{Node as Of};
ghost use Rattle.swc_tree_node.specs.Fits.{Fits};
ghost use Rattle.swc_tree_modules.specs.Nodes.{module_node};

use std::alloc::{AllocError, Global};
use swc_tree_handle::{Opened, Trees, class, clone_three, close_three, open_three};
use swc_tree_marks::{Atom, Span};
use swc_tree_node::{Kind, Node};

/// A program of the goal Module (ECMA-262, Module).
#[derive(Debug, Drop, PartialEq, Eq)]
pub struct Module {
    pub span: Span,
    pub body: Trees<class::ModuleItem>,
    pub shebang: Option<Atom>,
}

impl Clone for Module {
    ghost is_clone = { λ it copy. copy ≡ it };

    fn clone(&self) -> Result<Module, AllocError> {
        let (span, body, shebang) = clone_three(&self.span, &self.body, &self.shebang)?;
        Ok(Module {
            span,
            body,
            shebang,
        })
    }
}

impl Opened<class::Module> for Module {
    ghost class = { class.Module };

    ghost node = { module_node };

    fn from_node(closed: Node) -> Module
        requires { Fits closed (One (Of class.Module)) }
        ensures { module_node result ≡ closed }
    {
        let (span, body, shebang) = open_three::<class::Module, _, _, _>(closed, Kind::Module);
        Module {
            span,
            body,
            shebang,
        }
    }

    fn into_node(self, alloc: Global) -> Result<Node, AllocError>
        ensures { IfOk result (λ closed. (closed ≡ module_node self) × Fits closed (One (Of class.Module))) }
    {
        let Module {
            span,
            body,
            shebang,
        } = self;
        close_three::<class::Module, _, _, _>(alloc, Kind::Module, (span, body, shebang))
    }
}
