//! Printed by tools/print_table.py from tools/tree.txt.
ghost use Rattle.std.specs.Prelude.{◌≡◌, IfOk};
ghost use Rattle.swc_tree_node.specs.declared.kind.Class.TheVariants as class;
ghost use Rattle.swc_tree_node.specs.declared.slot.Slot.TheVariants.{One};
ghost use Rattle.swc_tree_node.specs.declared.slot.Content.TheVariants.{Node as Of};
ghost use Rattle.swc_tree_node.specs.Fits.{Fits};
ghost use Rattle.swc_tree_functions.specs.Nodes.{function_node};

use std::alloc::{AllocError, Global};
use swc_tree_handle::{Opened, Tree, Trees, class, clone_five, close_five, open_five};
use swc_tree_marks::Span;
use swc_tree_node::{Kind, Node};

/// The parameters and the body of a function (ECMA-262, 15.2).
#[derive(Debug, Drop, PartialEq, Eq)]
pub struct Function {
    pub span: Span,
    pub params: Trees<class::Param>,
    pub body: Tree<class::BlockStmt>,
    pub is_generator: bool,
    pub is_async: bool,
}

impl Clone for Function {
    ghost is_clone = { λ it copy. copy ≡ it };

    fn clone(&self) -> Result<Function, AllocError> {
        let (span, params, body, is_generator, is_async) = clone_five(
            &self.span,
            &self.params,
            &self.body,
            &self.is_generator,
            &self.is_async,
        )?;
        Ok(Function {
            span,
            params,
            body,
            is_generator,
            is_async,
        })
    }
}

impl Opened<class::Function> for Function {
    ghost class = { class.Function };

    ghost node = { function_node };

    fn from_node(closed: Node) -> Function
        requires { Fits closed (One (Of class.Function)) }
        ensures { function_node result ≡ closed }
    {
        let (span, params, body, is_generator, is_async) = open_five::<
            class::Function,
            _,
            _,
            _,
            _,
            _,
        >(closed, Kind::Function);
        Function {
            span,
            params,
            body,
            is_generator,
            is_async,
        }
    }

    fn into_node(self, alloc: Global) -> Result<Node, AllocError>
        ensures { IfOk result (λ closed. (closed ≡ function_node self) × Fits closed (One (Of class.Function))) }
    {
        let Function {
            span,
            params,
            body,
            is_generator,
            is_async,
        } = self;
        close_five::<class::Function, _, _, _, _, _>(
            alloc,
            Kind::Function,
            (span, params, body, is_generator, is_async),
        )
    }
}
