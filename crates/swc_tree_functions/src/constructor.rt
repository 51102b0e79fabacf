//! Printed by tools/print_table.py from tools/tree.txt.
ghost use Rattle.std.specs.Prelude.{◌≡◌, IfOk};
ghost use Rattle.swc_tree_node.specs.declared.kind.Class.TheVariants as class;
ghost use Rattle.swc_tree_node.specs.declared.slot.Slot.TheVariants.{One};
ghost use Rattle.swc_tree_node.specs.declared.slot.Content.TheVariants.{Node as Of};
ghost use Rattle.swc_tree_node.specs.Fits.{Fits};
ghost use Rattle.swc_tree_functions.specs.Nodes.{constructor_node};

use std::alloc::{AllocError, Global};
use swc_tree_handle::{Opened, Tree, Trees, class, clone_four, close_four, open_four};
use swc_tree_marks::Span;
use swc_tree_node::{Kind, Node};

/// The constructor of a class (ECMA-262, MethodDefinition).
#[derive(Debug, Drop, PartialEq, Eq)]
pub struct Constructor {
    pub span: Span,
    pub key: Tree<class::PropName>,
    pub params: Trees<class::Param>,
    pub body: Tree<class::BlockStmt>,
}

impl Clone for Constructor {
    ghost is_clone = { λ it copy. copy ≡ it };

    fn clone(&self) -> Result<Constructor, AllocError> {
        let (span, key, params, body) = clone_four(
            &self.span,
            &self.key,
            &self.params,
            &self.body,
        )?;
        Ok(Constructor {
            span,
            key,
            params,
            body,
        })
    }
}

impl Opened<class::Constructor> for Constructor {
    ghost class = { class.Constructor };

    ghost node = { constructor_node };

    fn from_node(closed: Node) -> Constructor
        requires { Fits closed (One (Of class.Constructor)) }
        ensures { constructor_node result ≡ closed }
    {
        let (span, key, params, body) = open_four::<class::Constructor, _, _, _, _>(
            closed,
            Kind::Constructor,
        );
        Constructor {
            span,
            key,
            params,
            body,
        }
    }

    fn into_node(self, alloc: Global) -> Result<Node, AllocError>
        ensures { IfOk result (λ closed. (closed ≡ constructor_node self) × Fits closed (One (Of class.Constructor))) }
    {
        let Constructor {
            span,
            key,
            params,
            body,
        } = self;
        close_four::<class::Constructor, _, _, _, _>(
            alloc,
            Kind::Constructor,
            (span, key, params, body),
        )
    }
}
