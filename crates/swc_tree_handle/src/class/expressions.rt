//! The classes of the family expressions.
//!
//! Printed by tools/print_table.py from tools/tree.txt.
use crate::class::Syntax;

/// The class `AssignTarget`.
pub struct AssignTarget;

impl Syntax for AssignTarget {
    ghost use Rattle.swc_tree_node.specs.declared.kind.Class.TheVariants as class;

    ghost class = { class.AssignTarget };
}

/// The class `SimpleAssignTarget`.
pub struct SimpleAssignTarget;

impl Syntax for SimpleAssignTarget {
    ghost use Rattle.swc_tree_node.specs.declared.kind.Class.TheVariants as class;

    ghost class = { class.SimpleAssignTarget };
}

/// The class `AssignTargetPat`.
pub struct AssignTargetPat;

impl Syntax for AssignTargetPat {
    ghost use Rattle.swc_tree_node.specs.declared.kind.Class.TheVariants as class;

    ghost class = { class.AssignTargetPat };
}

/// The class `Expr`.
pub struct Expr;

impl Syntax for Expr {
    ghost use Rattle.swc_tree_node.specs.declared.kind.Class.TheVariants as class;

    ghost class = { class.Expr };
}

/// The class `PropOrSpread`.
pub struct PropOrSpread;

impl Syntax for PropOrSpread {
    ghost use Rattle.swc_tree_node.specs.declared.kind.Class.TheVariants as class;

    ghost class = { class.PropOrSpread };
}

/// The class `Prop`.
pub struct Prop;

impl Syntax for Prop {
    ghost use Rattle.swc_tree_node.specs.declared.kind.Class.TheVariants as class;

    ghost class = { class.Prop };
}

/// The class `MemberProp`.
pub struct MemberProp;

impl Syntax for MemberProp {
    ghost use Rattle.swc_tree_node.specs.declared.kind.Class.TheVariants as class;

    ghost class = { class.MemberProp };
}

/// The class `SuperProp`.
pub struct SuperProp;

impl Syntax for SuperProp {
    ghost use Rattle.swc_tree_node.specs.declared.kind.Class.TheVariants as class;

    ghost class = { class.SuperProp };
}

/// The class `Callee`.
pub struct Callee;

impl Syntax for Callee {
    ghost use Rattle.swc_tree_node.specs.declared.kind.Class.TheVariants as class;

    ghost class = { class.Callee };
}

/// The class `OptChainBase`.
pub struct OptChainBase;

impl Syntax for OptChainBase {
    ghost use Rattle.swc_tree_node.specs.declared.kind.Class.TheVariants as class;

    ghost class = { class.OptChainBase };
}
