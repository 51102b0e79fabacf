//! Blocks, statements and declarations.
//!
//! Each struct and sum stands one level deep: its subtrees are `Tree`s and `Trees`.
//! Printed by tools/print_table.py from tools/tree.txt.
#![tactic(auto)]

mod block_stmt;
mod block_stmt_or_expr;
mod catch_clause;
mod class_decl;
mod decl;
mod do_while_stmt;
mod expr_stmt;
mod fn_decl;
mod for_head;
mod for_in_stmt;
mod for_of_stmt;
mod for_stmt;
mod if_stmt;
mod labeled_stmt;
mod return_stmt;
mod stmt;
mod switch_case;
mod switch_stmt;
mod throw_stmt;
mod try_stmt;
mod using_decl;
mod var_decl;
mod var_decl_kind;
mod var_decl_or_expr;
mod var_declarator;
mod while_stmt;
mod with_stmt;

pub use block_stmt::BlockStmt;
pub use block_stmt_or_expr::BlockStmtOrExpr;
pub use catch_clause::CatchClause;
pub use class_decl::ClassDecl;
pub use decl::Decl;
pub use do_while_stmt::DoWhileStmt;
pub use expr_stmt::ExprStmt;
pub use fn_decl::FnDecl;
pub use for_head::ForHead;
pub use for_in_stmt::ForInStmt;
pub use for_of_stmt::ForOfStmt;
pub use for_stmt::ForStmt;
pub use if_stmt::IfStmt;
pub use labeled_stmt::LabeledStmt;
pub use return_stmt::ReturnStmt;
pub use stmt::Stmt;
pub use switch_case::SwitchCase;
pub use switch_stmt::SwitchStmt;
pub use throw_stmt::ThrowStmt;
pub use try_stmt::TryStmt;
pub use using_decl::UsingDecl;
pub use var_decl::VarDecl;
pub use var_decl_kind::VarDeclKind;
pub use var_decl_or_expr::VarDeclOrExpr;
pub use var_declarator::VarDeclarator;
pub use while_stmt::WhileStmt;
pub use with_stmt::WithStmt;
