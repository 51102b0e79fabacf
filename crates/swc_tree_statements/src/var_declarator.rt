//! Printed by tools/print_table.py from tools/tree.txt.
ghost use Rattle.std.specs.Prelude.{◌≡◌, IfOk};
ghost use Rattle.swc_tree_node.specs.declared.kind.Class.TheVariants as class;
ghost use Rattle.swc_tree_node.specs.declared.slot.Slot.TheVariants.{One};
ghost use Rattle.swc_tree_node.specs.declared.slot.Content.TheVariants.{Node as Of};
ghost use Rattle.swc_tree_node.specs.Fits.{Fits};
ghost use Rattle.swc_tree_statements.specs.Nodes.{var_declarator_node};

use std::alloc::{AllocError, Global};
use swc_tree_handle::{Opened, Tree, class, clone_three, close_three, open_three};
use swc_tree_marks::Span;
use swc_tree_node::{Kind, Node};

/// One declared variable or pattern, with its initializer (ECMA-262, VariableDeclaration and LexicalBinding).
#[derive(Debug, Drop, PartialEq, Eq)]
pub struct VarDeclarator {
    pub span: Span,
    pub name: Tree<class::Pat>,
    pub init: Option<Tree<class::Expr>>,
}

impl Clone for VarDeclarator {
    ghost is_clone = { λ it copy. copy ≡ it };

    fn clone(&self) -> Result<VarDeclarator, AllocError> {
        let (span, name, init) = clone_three(&self.span, &self.name, &self.init)?;
        Ok(VarDeclarator { span, name, init })
    }
}

impl Opened<class::VarDeclarator> for VarDeclarator {
    ghost class = { class.VarDeclarator };

    ghost node = { var_declarator_node };

    fn from_node(closed: Node) -> VarDeclarator
        requires { Fits closed (One (Of class.VarDeclarator)) }
        ensures { var_declarator_node result ≡ closed }
    {
        let (span, name, init) = open_three::<class::VarDeclarator, _, _, _>(
            closed,
            Kind::VarDeclarator,
        );
        VarDeclarator { span, name, init }
    }

    fn into_node(self, alloc: Global) -> Result<Node, AllocError>
        ensures { IfOk result (λ closed. (closed ≡ var_declarator_node self) × Fits closed (One (Of class.VarDeclarator))) }
    {
        let VarDeclarator { span, name, init } = self;
        close_three::<class::VarDeclarator, _, _, _>(alloc, Kind::VarDeclarator, (span, name, init))
    }
}
