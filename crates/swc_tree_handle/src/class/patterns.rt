//! The classes of the family patterns.
//!
//! Printed by tools/print_table.py from tools/tree.txt.
use crate::class::Syntax;

/// The class `ArrayPat`.
pub struct ArrayPat;

impl Syntax for ArrayPat {
    ghost use Rattle.swc_tree_node.specs.declared.kind.Class.TheVariants as class;

    ghost class = { class.ArrayPat };
}

/// The class `RestPat`.
pub struct RestPat;

impl Syntax for RestPat {
    ghost use Rattle.swc_tree_node.specs.declared.kind.Class.TheVariants as class;

    ghost class = { class.RestPat };
}

/// The class `ObjectPat`.
pub struct ObjectPat;

impl Syntax for ObjectPat {
    ghost use Rattle.swc_tree_node.specs.declared.kind.Class.TheVariants as class;

    ghost class = { class.ObjectPat };
}

/// The class `AssignPat`.
pub struct AssignPat;

impl Syntax for AssignPat {
    ghost use Rattle.swc_tree_node.specs.declared.kind.Class.TheVariants as class;

    ghost class = { class.AssignPat };
}

/// The class `KeyValuePatProp`.
pub struct KeyValuePatProp;

impl Syntax for KeyValuePatProp {
    ghost use Rattle.swc_tree_node.specs.declared.kind.Class.TheVariants as class;

    ghost class = { class.KeyValuePatProp };
}

/// The class `AssignPatProp`.
pub struct AssignPatProp;

impl Syntax for AssignPatProp {
    ghost use Rattle.swc_tree_node.specs.declared.kind.Class.TheVariants as class;

    ghost class = { class.AssignPatProp };
}

/// The class `Pat`.
pub struct Pat;

impl Syntax for Pat {
    ghost use Rattle.swc_tree_node.specs.declared.kind.Class.TheVariants as class;

    ghost class = { class.Pat };
}

/// The class `ObjectPatProp`.
pub struct ObjectPatProp;

impl Syntax for ObjectPatProp {
    ghost use Rattle.swc_tree_node.specs.declared.kind.Class.TheVariants as class;

    ghost class = { class.ObjectPatProp };
}
