//! The classes of the family leaves.
//!
//! Printed by tools/print_table.py from tools/tree.txt.
use crate::class::Syntax;

/// The class `Ident`.
pub struct Ident;

impl Syntax for Ident {
    ghost use Rattle.swc_tree_node.specs.declared.kind.Class.TheVariants as class;

    ghost class = { class.Ident };
}

/// The class `BindingIdent`.
pub struct BindingIdent;

impl Syntax for BindingIdent {
    ghost use Rattle.swc_tree_node.specs.declared.kind.Class.TheVariants as class;

    ghost class = { class.BindingIdent };
}

/// The class `IdentName`.
pub struct IdentName;

impl Syntax for IdentName {
    ghost use Rattle.swc_tree_node.specs.declared.kind.Class.TheVariants as class;

    ghost class = { class.IdentName };
}

/// The class `PrivateName`.
pub struct PrivateName;

impl Syntax for PrivateName {
    ghost use Rattle.swc_tree_node.specs.declared.kind.Class.TheVariants as class;

    ghost class = { class.PrivateName };
}

/// The class `Str`.
pub struct Str;

impl Syntax for Str {
    ghost use Rattle.swc_tree_node.specs.declared.kind.Class.TheVariants as class;

    ghost class = { class.Str };
}

/// The class `Bool`.
pub struct Bool;

impl Syntax for Bool {
    ghost use Rattle.swc_tree_node.specs.declared.kind.Class.TheVariants as class;

    ghost class = { class.Bool };
}

/// The class `Null`.
pub struct Null;

impl Syntax for Null {
    ghost use Rattle.swc_tree_node.specs.declared.kind.Class.TheVariants as class;

    ghost class = { class.Null };
}

/// The class `Number`.
pub struct Number;

impl Syntax for Number {
    ghost use Rattle.swc_tree_node.specs.declared.kind.Class.TheVariants as class;

    ghost class = { class.Number };
}

/// The class `BigInt`.
pub struct BigInt;

impl Syntax for BigInt {
    ghost use Rattle.swc_tree_node.specs.declared.kind.Class.TheVariants as class;

    ghost class = { class.BigInt };
}

/// The class `Regex`.
pub struct Regex;

impl Syntax for Regex {
    ghost use Rattle.swc_tree_node.specs.declared.kind.Class.TheVariants as class;

    ghost class = { class.Regex };
}

/// The class `TplElement`.
pub struct TplElement;

impl Syntax for TplElement {
    ghost use Rattle.swc_tree_node.specs.declared.kind.Class.TheVariants as class;

    ghost class = { class.TplElement };
}

/// The class `ThisExpr`.
pub struct ThisExpr;

impl Syntax for ThisExpr {
    ghost use Rattle.swc_tree_node.specs.declared.kind.Class.TheVariants as class;

    ghost class = { class.ThisExpr };
}

/// The class `Super`.
pub struct Super;

impl Syntax for Super {
    ghost use Rattle.swc_tree_node.specs.declared.kind.Class.TheVariants as class;

    ghost class = { class.Super };
}

/// The class `Import`.
pub struct Import;

impl Syntax for Import {
    ghost use Rattle.swc_tree_node.specs.declared.kind.Class.TheVariants as class;

    ghost class = { class.Import };
}

/// The class `MetaPropExpr`.
pub struct MetaPropExpr;

impl Syntax for MetaPropExpr {
    ghost use Rattle.swc_tree_node.specs.declared.kind.Class.TheVariants as class;

    ghost class = { class.MetaPropExpr };
}

/// The class `EmptyStmt`.
pub struct EmptyStmt;

impl Syntax for EmptyStmt {
    ghost use Rattle.swc_tree_node.specs.declared.kind.Class.TheVariants as class;

    ghost class = { class.EmptyStmt };
}

/// The class `DebuggerStmt`.
pub struct DebuggerStmt;

impl Syntax for DebuggerStmt {
    ghost use Rattle.swc_tree_node.specs.declared.kind.Class.TheVariants as class;

    ghost class = { class.DebuggerStmt };
}

/// The class `BreakStmt`.
pub struct BreakStmt;

impl Syntax for BreakStmt {
    ghost use Rattle.swc_tree_node.specs.declared.kind.Class.TheVariants as class;

    ghost class = { class.BreakStmt };
}

/// The class `ContinueStmt`.
pub struct ContinueStmt;

impl Syntax for ContinueStmt {
    ghost use Rattle.swc_tree_node.specs.declared.kind.Class.TheVariants as class;

    ghost class = { class.ContinueStmt };
}

/// The class `ModuleExportName`.
pub struct ModuleExportName;

impl Syntax for ModuleExportName {
    ghost use Rattle.swc_tree_node.specs.declared.kind.Class.TheVariants as class;

    ghost class = { class.ModuleExportName };
}

/// The class `Lit`.
pub struct Lit;

impl Syntax for Lit {
    ghost use Rattle.swc_tree_node.specs.declared.kind.Class.TheVariants as class;

    ghost class = { class.Lit };
}
