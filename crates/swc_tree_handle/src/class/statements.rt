//! The classes of the family statements.
//!
//! Printed by tools/print_table.py from tools/tree.txt.
use crate::class::Syntax;

/// The class `ClassDecl`.
pub struct ClassDecl;

impl Syntax for ClassDecl {
    ghost use Rattle.swc_tree_node.specs.declared.kind.Class.TheVariants as class;

    ghost class = { class.ClassDecl };
}

/// The class `FnDecl`.
pub struct FnDecl;

impl Syntax for FnDecl {
    ghost use Rattle.swc_tree_node.specs.declared.kind.Class.TheVariants as class;

    ghost class = { class.FnDecl };
}

/// The class `VarDecl`.
pub struct VarDecl;

impl Syntax for VarDecl {
    ghost use Rattle.swc_tree_node.specs.declared.kind.Class.TheVariants as class;

    ghost class = { class.VarDecl };
}

/// The class `UsingDecl`.
pub struct UsingDecl;

impl Syntax for UsingDecl {
    ghost use Rattle.swc_tree_node.specs.declared.kind.Class.TheVariants as class;

    ghost class = { class.UsingDecl };
}

/// The class `VarDeclarator`.
pub struct VarDeclarator;

impl Syntax for VarDeclarator {
    ghost use Rattle.swc_tree_node.specs.declared.kind.Class.TheVariants as class;

    ghost class = { class.VarDeclarator };
}

/// The class `BlockStmt`.
pub struct BlockStmt;

impl Syntax for BlockStmt {
    ghost use Rattle.swc_tree_node.specs.declared.kind.Class.TheVariants as class;

    ghost class = { class.BlockStmt };
}

/// The class `ExprStmt`.
pub struct ExprStmt;

impl Syntax for ExprStmt {
    ghost use Rattle.swc_tree_node.specs.declared.kind.Class.TheVariants as class;

    ghost class = { class.ExprStmt };
}

/// The class `WithStmt`.
pub struct WithStmt;

impl Syntax for WithStmt {
    ghost use Rattle.swc_tree_node.specs.declared.kind.Class.TheVariants as class;

    ghost class = { class.WithStmt };
}

/// The class `ReturnStmt`.
pub struct ReturnStmt;

impl Syntax for ReturnStmt {
    ghost use Rattle.swc_tree_node.specs.declared.kind.Class.TheVariants as class;

    ghost class = { class.ReturnStmt };
}

/// The class `ThrowStmt`.
pub struct ThrowStmt;

impl Syntax for ThrowStmt {
    ghost use Rattle.swc_tree_node.specs.declared.kind.Class.TheVariants as class;

    ghost class = { class.ThrowStmt };
}

/// The class `LabeledStmt`.
pub struct LabeledStmt;

impl Syntax for LabeledStmt {
    ghost use Rattle.swc_tree_node.specs.declared.kind.Class.TheVariants as class;

    ghost class = { class.LabeledStmt };
}

/// The class `IfStmt`.
pub struct IfStmt;

impl Syntax for IfStmt {
    ghost use Rattle.swc_tree_node.specs.declared.kind.Class.TheVariants as class;

    ghost class = { class.IfStmt };
}

/// The class `SwitchStmt`.
pub struct SwitchStmt;

impl Syntax for SwitchStmt {
    ghost use Rattle.swc_tree_node.specs.declared.kind.Class.TheVariants as class;

    ghost class = { class.SwitchStmt };
}

/// The class `SwitchCase`.
pub struct SwitchCase;

impl Syntax for SwitchCase {
    ghost use Rattle.swc_tree_node.specs.declared.kind.Class.TheVariants as class;

    ghost class = { class.SwitchCase };
}

/// The class `TryStmt`.
pub struct TryStmt;

impl Syntax for TryStmt {
    ghost use Rattle.swc_tree_node.specs.declared.kind.Class.TheVariants as class;

    ghost class = { class.TryStmt };
}

/// The class `CatchClause`.
pub struct CatchClause;

impl Syntax for CatchClause {
    ghost use Rattle.swc_tree_node.specs.declared.kind.Class.TheVariants as class;

    ghost class = { class.CatchClause };
}

/// The class `WhileStmt`.
pub struct WhileStmt;

impl Syntax for WhileStmt {
    ghost use Rattle.swc_tree_node.specs.declared.kind.Class.TheVariants as class;

    ghost class = { class.WhileStmt };
}

/// The class `DoWhileStmt`.
pub struct DoWhileStmt;

impl Syntax for DoWhileStmt {
    ghost use Rattle.swc_tree_node.specs.declared.kind.Class.TheVariants as class;

    ghost class = { class.DoWhileStmt };
}

/// The class `ForStmt`.
pub struct ForStmt;

impl Syntax for ForStmt {
    ghost use Rattle.swc_tree_node.specs.declared.kind.Class.TheVariants as class;

    ghost class = { class.ForStmt };
}

/// The class `ForInStmt`.
pub struct ForInStmt;

impl Syntax for ForInStmt {
    ghost use Rattle.swc_tree_node.specs.declared.kind.Class.TheVariants as class;

    ghost class = { class.ForInStmt };
}

/// The class `ForOfStmt`.
pub struct ForOfStmt;

impl Syntax for ForOfStmt {
    ghost use Rattle.swc_tree_node.specs.declared.kind.Class.TheVariants as class;

    ghost class = { class.ForOfStmt };
}

/// The class `Stmt`.
pub struct Stmt;

impl Syntax for Stmt {
    ghost use Rattle.swc_tree_node.specs.declared.kind.Class.TheVariants as class;

    ghost class = { class.Stmt };
}

/// The class `Decl`.
pub struct Decl;

impl Syntax for Decl {
    ghost use Rattle.swc_tree_node.specs.declared.kind.Class.TheVariants as class;

    ghost class = { class.Decl };
}

/// The class `BlockStmtOrExpr`.
pub struct BlockStmtOrExpr;

impl Syntax for BlockStmtOrExpr {
    ghost use Rattle.swc_tree_node.specs.declared.kind.Class.TheVariants as class;

    ghost class = { class.BlockStmtOrExpr };
}

/// The class `VarDeclOrExpr`.
pub struct VarDeclOrExpr;

impl Syntax for VarDeclOrExpr {
    ghost use Rattle.swc_tree_node.specs.declared.kind.Class.TheVariants as class;

    ghost class = { class.VarDeclOrExpr };
}

/// The class `ForHead`.
pub struct ForHead;

impl Syntax for ForHead {
    ghost use Rattle.swc_tree_node.specs.declared.kind.Class.TheVariants as class;

    ghost class = { class.ForHead };
}
