//! Printed by tools/print_table.py from tools/tree.txt.
ghost use Rattle.std.specs.Prelude.{◌≡◌, IfOk};
ghost use Rattle.swc_tree_node.specs.declared.kind.Class.TheVariants as class;
ghost use Rattle.swc_tree_node.specs.declared.slot.Slot.TheVariants.{One};
ghost use Rattle.swc_tree_node.specs.declared.slot.Content.TheVariants.{Node as Of};
ghost use Rattle.swc_tree_node.specs.Fits.{Fits};
ghost use Rattle.swc_tree_patterns.specs.Nodes.{of_pat};

use crate::array_pat::ArrayPat;
use crate::assign_pat::AssignPat;
use crate::object_pat::ObjectPat;
use crate::rest_pat::RestPat;
use std::alloc::{AllocError, Global};
use swc_tree_handle::{Opened, Tree, class};
use swc_tree_leaves::BindingIdent;
use swc_tree_node::{Kind, Node};

/// What a value is bound or assigned to (ECMA-262, BindingPattern and AssignmentPattern).
#[derive(Clone, Debug, Drop, PartialEq, Eq)]
pub enum Pat {
    Ident(BindingIdent),
    Array(ArrayPat),
    Rest(RestPat),
    Object(ObjectPat),
    Assign(AssignPat),
    Expr(Tree<class::Expr>),
}

impl Opened<class::Pat> for Pat {
    ghost class = { class.Pat };

    ghost node = { of_pat };

    fn from_node(closed: Node) -> Pat
        requires { Fits closed (One (Of class.Pat)) }
        ensures { of_pat result ≡ closed }
    {
        let tree = Tree::<class::Pat>::from_node(closed);
        match tree.kind() {
            Kind::BindingIdent => Pat::Ident(tree.narrow::<class::BindingIdent>().open()),
            Kind::ArrayPat => Pat::Array(tree.narrow::<class::ArrayPat>().open()),
            Kind::RestPat => Pat::Rest(tree.narrow::<class::RestPat>().open()),
            Kind::ObjectPat => Pat::Object(tree.narrow::<class::ObjectPat>().open()),
            Kind::AssignPat => Pat::Assign(tree.narrow::<class::AssignPat>().open()),
            _ => Pat::Expr(tree.narrow()),
        }
    }

    fn into_node(self, alloc: Global) -> Result<Node, AllocError>
        ensures { IfOk result (λ closed. (closed ≡ of_pat self) × Fits closed (One (Of class.Pat))) }
    {
        match self {
            Pat::Ident(opened) => opened.close_within::<class::Pat>(alloc),
            Pat::Array(opened) => opened.close_within::<class::Pat>(alloc),
            Pat::Rest(opened) => opened.close_within::<class::Pat>(alloc),
            Pat::Object(opened) => opened.close_within::<class::Pat>(alloc),
            Pat::Assign(opened) => opened.close_within::<class::Pat>(alloc),
            Pat::Expr(tree) => Ok(tree.widen::<class::Pat>().into_node()),
        }
    }
}
