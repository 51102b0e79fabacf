//! The classes of the family operations.
//!
//! Printed by tools/print_table.py from tools/tree.txt.
use crate::class::Syntax;

/// The class `ArrayLit`.
pub struct ArrayLit;

impl Syntax for ArrayLit {
    ghost use Rattle.swc_tree_node.specs.declared.kind.Class.TheVariants as class;

    ghost class = { class.ArrayLit };
}

/// The class `ExprOrSpread`.
pub struct ExprOrSpread;

impl Syntax for ExprOrSpread {
    ghost use Rattle.swc_tree_node.specs.declared.kind.Class.TheVariants as class;

    ghost class = { class.ExprOrSpread };
}

/// The class `ObjectLit`.
pub struct ObjectLit;

impl Syntax for ObjectLit {
    ghost use Rattle.swc_tree_node.specs.declared.kind.Class.TheVariants as class;

    ghost class = { class.ObjectLit };
}

/// The class `SpreadElement`.
pub struct SpreadElement;

impl Syntax for SpreadElement {
    ghost use Rattle.swc_tree_node.specs.declared.kind.Class.TheVariants as class;

    ghost class = { class.SpreadElement };
}

/// The class `KeyValueProp`.
pub struct KeyValueProp;

impl Syntax for KeyValueProp {
    ghost use Rattle.swc_tree_node.specs.declared.kind.Class.TheVariants as class;

    ghost class = { class.KeyValueProp };
}

/// The class `UnaryExpr`.
pub struct UnaryExpr;

impl Syntax for UnaryExpr {
    ghost use Rattle.swc_tree_node.specs.declared.kind.Class.TheVariants as class;

    ghost class = { class.UnaryExpr };
}

/// The class `UpdateExpr`.
pub struct UpdateExpr;

impl Syntax for UpdateExpr {
    ghost use Rattle.swc_tree_node.specs.declared.kind.Class.TheVariants as class;

    ghost class = { class.UpdateExpr };
}

/// The class `BinExpr`.
pub struct BinExpr;

impl Syntax for BinExpr {
    ghost use Rattle.swc_tree_node.specs.declared.kind.Class.TheVariants as class;

    ghost class = { class.BinExpr };
}

/// The class `AssignExpr`.
pub struct AssignExpr;

impl Syntax for AssignExpr {
    ghost use Rattle.swc_tree_node.specs.declared.kind.Class.TheVariants as class;

    ghost class = { class.AssignExpr };
}

/// The class `MemberExpr`.
pub struct MemberExpr;

impl Syntax for MemberExpr {
    ghost use Rattle.swc_tree_node.specs.declared.kind.Class.TheVariants as class;

    ghost class = { class.MemberExpr };
}

/// The class `SuperPropExpr`.
pub struct SuperPropExpr;

impl Syntax for SuperPropExpr {
    ghost use Rattle.swc_tree_node.specs.declared.kind.Class.TheVariants as class;

    ghost class = { class.SuperPropExpr };
}

/// The class `CondExpr`.
pub struct CondExpr;

impl Syntax for CondExpr {
    ghost use Rattle.swc_tree_node.specs.declared.kind.Class.TheVariants as class;

    ghost class = { class.CondExpr };
}

/// The class `CallExpr`.
pub struct CallExpr;

impl Syntax for CallExpr {
    ghost use Rattle.swc_tree_node.specs.declared.kind.Class.TheVariants as class;

    ghost class = { class.CallExpr };
}

/// The class `NewExpr`.
pub struct NewExpr;

impl Syntax for NewExpr {
    ghost use Rattle.swc_tree_node.specs.declared.kind.Class.TheVariants as class;

    ghost class = { class.NewExpr };
}

/// The class `SeqExpr`.
pub struct SeqExpr;

impl Syntax for SeqExpr {
    ghost use Rattle.swc_tree_node.specs.declared.kind.Class.TheVariants as class;

    ghost class = { class.SeqExpr };
}

/// The class `ParenExpr`.
pub struct ParenExpr;

impl Syntax for ParenExpr {
    ghost use Rattle.swc_tree_node.specs.declared.kind.Class.TheVariants as class;

    ghost class = { class.ParenExpr };
}

/// The class `AwaitExpr`.
pub struct AwaitExpr;

impl Syntax for AwaitExpr {
    ghost use Rattle.swc_tree_node.specs.declared.kind.Class.TheVariants as class;

    ghost class = { class.AwaitExpr };
}

/// The class `YieldExpr`.
pub struct YieldExpr;

impl Syntax for YieldExpr {
    ghost use Rattle.swc_tree_node.specs.declared.kind.Class.TheVariants as class;

    ghost class = { class.YieldExpr };
}

/// The class `Tpl`.
pub struct Tpl;

impl Syntax for Tpl {
    ghost use Rattle.swc_tree_node.specs.declared.kind.Class.TheVariants as class;

    ghost class = { class.Tpl };
}

/// The class `TaggedTpl`.
pub struct TaggedTpl;

impl Syntax for TaggedTpl {
    ghost use Rattle.swc_tree_node.specs.declared.kind.Class.TheVariants as class;

    ghost class = { class.TaggedTpl };
}

/// The class `OptChainExpr`.
pub struct OptChainExpr;

impl Syntax for OptChainExpr {
    ghost use Rattle.swc_tree_node.specs.declared.kind.Class.TheVariants as class;

    ghost class = { class.OptChainExpr };
}

/// The class `OptCall`.
pub struct OptCall;

impl Syntax for OptCall {
    ghost use Rattle.swc_tree_node.specs.declared.kind.Class.TheVariants as class;

    ghost class = { class.OptCall };
}
