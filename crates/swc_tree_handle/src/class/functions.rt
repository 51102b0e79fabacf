//! The classes of the family functions.
//!
//! Printed by tools/print_table.py from tools/tree.txt.
use crate::class::Syntax;

/// The class `Function`.
pub struct Function;

impl Syntax for Function {
    ghost use Rattle.swc_tree_node.specs.declared.kind.Class.TheVariants as class;

    ghost class = { class.Function };
}

/// The class `Param`.
pub struct Param;

impl Syntax for Param {
    ghost use Rattle.swc_tree_node.specs.declared.kind.Class.TheVariants as class;

    ghost class = { class.Param };
}

/// The class `FnExpr`.
pub struct FnExpr;

impl Syntax for FnExpr {
    ghost use Rattle.swc_tree_node.specs.declared.kind.Class.TheVariants as class;

    ghost class = { class.FnExpr };
}

/// The class `ArrowExpr`.
pub struct ArrowExpr;

impl Syntax for ArrowExpr {
    ghost use Rattle.swc_tree_node.specs.declared.kind.Class.TheVariants as class;

    ghost class = { class.ArrowExpr };
}

/// The class `Class`.
pub struct Class;

impl Syntax for Class {
    ghost use Rattle.swc_tree_node.specs.declared.kind.Class.TheVariants as class;

    ghost class = { class.Class };
}

/// The class `ClassExpr`.
pub struct ClassExpr;

impl Syntax for ClassExpr {
    ghost use Rattle.swc_tree_node.specs.declared.kind.Class.TheVariants as class;

    ghost class = { class.ClassExpr };
}

/// The class `Constructor`.
pub struct Constructor;

impl Syntax for Constructor {
    ghost use Rattle.swc_tree_node.specs.declared.kind.Class.TheVariants as class;

    ghost class = { class.Constructor };
}

/// The class `ClassMethod`.
pub struct ClassMethod;

impl Syntax for ClassMethod {
    ghost use Rattle.swc_tree_node.specs.declared.kind.Class.TheVariants as class;

    ghost class = { class.ClassMethod };
}

/// The class `PrivateMethod`.
pub struct PrivateMethod;

impl Syntax for PrivateMethod {
    ghost use Rattle.swc_tree_node.specs.declared.kind.Class.TheVariants as class;

    ghost class = { class.PrivateMethod };
}

/// The class `ClassProp`.
pub struct ClassProp;

impl Syntax for ClassProp {
    ghost use Rattle.swc_tree_node.specs.declared.kind.Class.TheVariants as class;

    ghost class = { class.ClassProp };
}

/// The class `PrivateProp`.
pub struct PrivateProp;

impl Syntax for PrivateProp {
    ghost use Rattle.swc_tree_node.specs.declared.kind.Class.TheVariants as class;

    ghost class = { class.PrivateProp };
}

/// The class `StaticBlock`.
pub struct StaticBlock;

impl Syntax for StaticBlock {
    ghost use Rattle.swc_tree_node.specs.declared.kind.Class.TheVariants as class;

    ghost class = { class.StaticBlock };
}

/// The class `ComputedPropName`.
pub struct ComputedPropName;

impl Syntax for ComputedPropName {
    ghost use Rattle.swc_tree_node.specs.declared.kind.Class.TheVariants as class;

    ghost class = { class.ComputedPropName };
}

/// The class `MethodProp`.
pub struct MethodProp;

impl Syntax for MethodProp {
    ghost use Rattle.swc_tree_node.specs.declared.kind.Class.TheVariants as class;

    ghost class = { class.MethodProp };
}

/// The class `GetterProp`.
pub struct GetterProp;

impl Syntax for GetterProp {
    ghost use Rattle.swc_tree_node.specs.declared.kind.Class.TheVariants as class;

    ghost class = { class.GetterProp };
}

/// The class `SetterProp`.
pub struct SetterProp;

impl Syntax for SetterProp {
    ghost use Rattle.swc_tree_node.specs.declared.kind.Class.TheVariants as class;

    ghost class = { class.SetterProp };
}

/// The class `ClassMember`.
pub struct ClassMember;

impl Syntax for ClassMember {
    ghost use Rattle.swc_tree_node.specs.declared.kind.Class.TheVariants as class;

    ghost class = { class.ClassMember };
}

/// The class `PropName`.
pub struct PropName;

impl Syntax for PropName {
    ghost use Rattle.swc_tree_node.specs.declared.kind.Class.TheVariants as class;

    ghost class = { class.PropName };
}
