//! Printed by tools/print_table.py from tools/tree.txt.
ghost use Rattle.std.specs.Prelude.{◌≡◌, IfOk};
ghost use Rattle.swc_tree_node.specs.declared.kind.Class.TheVariants as class;
ghost use Rattle.swc_tree_node.specs.declared.slot.Slot.TheVariants.{One};
ghost use Rattle.swc_tree_node.specs.declared.slot.Content.TheVariants.{Node as Of};
ghost use Rattle.swc_tree_node.specs.Fits.{Fits};
ghost use Rattle.swc_tree_functions.specs.Nodes.{of_class_member};

use crate::class_method::ClassMethod;
use crate::class_prop::ClassProp;
use crate::constructor::Constructor;
use crate::private_method::PrivateMethod;
use crate::private_prop::PrivateProp;
use crate::static_block::StaticBlock;
use std::alloc::{AllocError, Global};
use swc_tree_handle::{Opened, Tree, class};
use swc_tree_leaves::EmptyStmt;
use swc_tree_node::{Kind, Node};

/// A member of a class (ECMA-262, ClassElement).
#[derive(Clone, Debug, Drop, PartialEq, Eq)]
pub enum ClassMember {
    Constructor(Constructor),
    Method(ClassMethod),
    PrivateMethod(PrivateMethod),
    ClassProp(ClassProp),
    PrivateProp(PrivateProp),
    Empty(EmptyStmt),
    StaticBlock(StaticBlock),
}

impl Opened<class::ClassMember> for ClassMember {
    ghost class = { class.ClassMember };

    ghost node = { of_class_member };

    fn from_node(closed: Node) -> ClassMember
        requires { Fits closed (One (Of class.ClassMember)) }
        ensures { of_class_member result ≡ closed }
    {
        let tree = Tree::<class::ClassMember>::from_node(closed);
        match tree.kind() {
            Kind::Constructor => ClassMember::Constructor(
                tree.narrow::<class::Constructor>().open(),
            ),
            Kind::ClassMethod => ClassMember::Method(tree.narrow::<class::ClassMethod>().open()),
            Kind::PrivateMethod => ClassMember::PrivateMethod(
                tree.narrow::<class::PrivateMethod>().open(),
            ),
            Kind::ClassProp => ClassMember::ClassProp(tree.narrow::<class::ClassProp>().open()),
            Kind::PrivateProp => ClassMember::PrivateProp(
                tree.narrow::<class::PrivateProp>().open(),
            ),
            Kind::EmptyStmt => ClassMember::Empty(tree.narrow::<class::EmptyStmt>().open()),
            Kind::StaticBlock => ClassMember::StaticBlock(
                tree.narrow::<class::StaticBlock>().open(),
            ),
            _ => unreachable!(),
        }
    }

    fn into_node(self, alloc: Global) -> Result<Node, AllocError>
        ensures { IfOk result (λ closed. (closed ≡ of_class_member self) × Fits closed (One (Of class.ClassMember))) }
    {
        match self {
            ClassMember::Constructor(opened) => opened.close_within::<class::ClassMember>(alloc),
            ClassMember::Method(opened) => opened.close_within::<class::ClassMember>(alloc),
            ClassMember::PrivateMethod(opened) => opened.close_within::<class::ClassMember>(alloc),
            ClassMember::ClassProp(opened) => opened.close_within::<class::ClassMember>(alloc),
            ClassMember::PrivateProp(opened) => opened.close_within::<class::ClassMember>(alloc),
            ClassMember::Empty(opened) => opened.close_within::<class::ClassMember>(alloc),
            ClassMember::StaticBlock(opened) => opened.close_within::<class::ClassMember>(alloc),
        }
    }
}
