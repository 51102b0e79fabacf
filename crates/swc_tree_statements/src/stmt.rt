//! Printed by tools/print_table.py from tools/tree.txt.
ghost use Rattle.std.specs.Prelude.{◌≡◌, IfOk};
ghost use Rattle.swc_tree_node.specs.declared.kind.Class.TheVariants as class;
ghost use Rattle.swc_tree_node.specs.declared.slot.Slot.TheVariants.{One};
ghost use Rattle.swc_tree_node.specs.declared.slot.Content.TheVariants.{Node as Of};
ghost use Rattle.swc_tree_node.specs.Fits.{Fits};
ghost use Rattle.swc_tree_statements.specs.Nodes.{of_stmt};

use crate::block_stmt::BlockStmt;
use crate::decl::Decl;
use crate::do_while_stmt::DoWhileStmt;
use crate::expr_stmt::ExprStmt;
use crate::for_in_stmt::ForInStmt;
use crate::for_of_stmt::ForOfStmt;
use crate::for_stmt::ForStmt;
use crate::if_stmt::IfStmt;
use crate::labeled_stmt::LabeledStmt;
use crate::return_stmt::ReturnStmt;
use crate::switch_stmt::SwitchStmt;
use crate::throw_stmt::ThrowStmt;
use crate::try_stmt::TryStmt;
use crate::while_stmt::WhileStmt;
use crate::with_stmt::WithStmt;
use std::alloc::{AllocError, Global};
use swc_tree_handle::{Opened, Tree, class};
use swc_tree_leaves::{BreakStmt, ContinueStmt, DebuggerStmt, EmptyStmt};
use swc_tree_node::{Kind, Node};

/// A statement or declaration (ECMA-262, StatementListItem).
#[derive(Clone, Debug, Drop, PartialEq, Eq)]
pub enum Stmt {
    Block(BlockStmt),
    Empty(EmptyStmt),
    Debugger(DebuggerStmt),
    With(WithStmt),
    Return(ReturnStmt),
    Labeled(LabeledStmt),
    Break(BreakStmt),
    Continue(ContinueStmt),
    If(IfStmt),
    Switch(SwitchStmt),
    Throw(ThrowStmt),
    Try(TryStmt),
    While(WhileStmt),
    DoWhile(DoWhileStmt),
    For(ForStmt),
    ForIn(ForInStmt),
    ForOf(ForOfStmt),
    Decl(Decl),
    Expr(ExprStmt),
}

impl Opened<class::Stmt> for Stmt {
    ghost class = { class.Stmt };

    ghost node = { of_stmt };

    fn from_node(closed: Node) -> Stmt
        requires { Fits closed (One (Of class.Stmt)) }
        ensures { of_stmt result ≡ closed }
    {
        let tree = Tree::<class::Stmt>::from_node(closed);
        match tree.kind() {
            Kind::BlockStmt => Stmt::Block(tree.narrow::<class::BlockStmt>().open()),
            Kind::EmptyStmt => Stmt::Empty(tree.narrow::<class::EmptyStmt>().open()),
            Kind::DebuggerStmt => Stmt::Debugger(tree.narrow::<class::DebuggerStmt>().open()),
            Kind::WithStmt => Stmt::With(tree.narrow::<class::WithStmt>().open()),
            Kind::ReturnStmt => Stmt::Return(tree.narrow::<class::ReturnStmt>().open()),
            Kind::LabeledStmt => Stmt::Labeled(tree.narrow::<class::LabeledStmt>().open()),
            Kind::BreakStmt => Stmt::Break(tree.narrow::<class::BreakStmt>().open()),
            Kind::ContinueStmt => Stmt::Continue(tree.narrow::<class::ContinueStmt>().open()),
            Kind::IfStmt => Stmt::If(tree.narrow::<class::IfStmt>().open()),
            Kind::SwitchStmt => Stmt::Switch(tree.narrow::<class::SwitchStmt>().open()),
            Kind::ThrowStmt => Stmt::Throw(tree.narrow::<class::ThrowStmt>().open()),
            Kind::TryStmt => Stmt::Try(tree.narrow::<class::TryStmt>().open()),
            Kind::WhileStmt => Stmt::While(tree.narrow::<class::WhileStmt>().open()),
            Kind::DoWhileStmt => Stmt::DoWhile(tree.narrow::<class::DoWhileStmt>().open()),
            Kind::ForStmt => Stmt::For(tree.narrow::<class::ForStmt>().open()),
            Kind::ForInStmt => Stmt::ForIn(tree.narrow::<class::ForInStmt>().open()),
            Kind::ForOfStmt => Stmt::ForOf(tree.narrow::<class::ForOfStmt>().open()),
            Kind::ClassDecl
            | Kind::FnDecl
            | Kind::VarDecl
            | Kind::UsingDecl
            | Kind::TsInterfaceDecl
            | Kind::TsTypeAliasDecl
            | Kind::TsEnumDecl
            | Kind::TsModuleDecl => Stmt::Decl(tree.narrow::<class::Decl>().open()),
            Kind::ExprStmt => Stmt::Expr(tree.narrow::<class::ExprStmt>().open()),
            _ => unreachable!(),
        }
    }

    fn into_node(self, alloc: Global) -> Result<Node, AllocError>
        ensures { IfOk result (λ closed. (closed ≡ of_stmt self) × Fits closed (One (Of class.Stmt))) }
    {
        match self {
            Stmt::Block(opened) => opened.close_within::<class::Stmt>(alloc),
            Stmt::Empty(opened) => opened.close_within::<class::Stmt>(alloc),
            Stmt::Debugger(opened) => opened.close_within::<class::Stmt>(alloc),
            Stmt::With(opened) => opened.close_within::<class::Stmt>(alloc),
            Stmt::Return(opened) => opened.close_within::<class::Stmt>(alloc),
            Stmt::Labeled(opened) => opened.close_within::<class::Stmt>(alloc),
            Stmt::Break(opened) => opened.close_within::<class::Stmt>(alloc),
            Stmt::Continue(opened) => opened.close_within::<class::Stmt>(alloc),
            Stmt::If(opened) => opened.close_within::<class::Stmt>(alloc),
            Stmt::Switch(opened) => opened.close_within::<class::Stmt>(alloc),
            Stmt::Throw(opened) => opened.close_within::<class::Stmt>(alloc),
            Stmt::Try(opened) => opened.close_within::<class::Stmt>(alloc),
            Stmt::While(opened) => opened.close_within::<class::Stmt>(alloc),
            Stmt::DoWhile(opened) => opened.close_within::<class::Stmt>(alloc),
            Stmt::For(opened) => opened.close_within::<class::Stmt>(alloc),
            Stmt::ForIn(opened) => opened.close_within::<class::Stmt>(alloc),
            Stmt::ForOf(opened) => opened.close_within::<class::Stmt>(alloc),
            Stmt::Decl(opened) => opened.close_within::<class::Stmt>(alloc),
            Stmt::Expr(opened) => opened.close_within::<class::Stmt>(alloc),
        }
    }
}
