//! Names, literals and other parts that hold no subtree.
//!
//! Each struct and sum stands one level deep: its subtrees are `Tree`s and `Trees`.
//! Printed by tools/print_table.py from tools/tree.txt.
#![tactic(auto)]

mod big_int;
mod binding_ident;
mod bool;
mod break_stmt;
mod continue_stmt;
mod debugger_stmt;
mod empty_stmt;
mod ident_name;
mod import;
mod lit;
mod meta_prop_expr;
mod meta_prop_kind;
mod module_export_name;
mod null;
mod number;
mod private_name;
mod regex;
mod str;
mod super_;
mod this_expr;
mod tpl_element;

pub use big_int::BigInt;
pub use binding_ident::BindingIdent;
pub use bool::Bool;
pub use break_stmt::BreakStmt;
pub use continue_stmt::ContinueStmt;
pub use debugger_stmt::DebuggerStmt;
pub use empty_stmt::EmptyStmt;
pub use ident_name::IdentName;
pub use import::Import;
pub use lit::Lit;
pub use meta_prop_expr::MetaPropExpr;
pub use meta_prop_kind::MetaPropKind;
pub use module_export_name::ModuleExportName;
pub use null::Null;
pub use number::Number;
pub use private_name::PrivateName;
pub use regex::Regex;
pub use str::{OptionalStr, Str};
pub use super_::Super;
pub use this_expr::ThisExpr;
pub use tpl_element::TplElement;
